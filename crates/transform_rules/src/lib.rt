// The rules of the inverse transform; no function.
#![tactic(auto)]
