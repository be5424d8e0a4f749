// The rules of refinement planes, DC and AC, read and written; no function.
#![tactic(auto)]
