// What was written is read back, and which byte was asked for last: laws of bits, codes and planes over the rules. No function.
#![tactic(auto)]
