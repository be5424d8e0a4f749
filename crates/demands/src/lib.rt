// No code: specs/ holds the user's demands as statements over the definitions, proofs/ their proofs.
#![tactic(auto)]
