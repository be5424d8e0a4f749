// The rules of bits, bytes and code tables; no function.
#![tactic(auto)]
