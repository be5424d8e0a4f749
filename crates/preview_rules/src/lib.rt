// The rules of what a preview owes to the full picture; no function.
#![tactic(auto)]
