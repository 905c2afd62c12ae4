// A page from nothing: definitions and proofs, no code.
#![tactic(auto)]
