// Readings and writings of AC planes by computation. No function.
#![tactic(auto)]
