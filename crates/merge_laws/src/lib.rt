// Laws over the rules of the merge: its refusals in their order, and the inverse sRGB table by its rule. No function.
#![tactic(auto)]
