// A page as the list of its records: definitions and proofs, no code.
#![tactic(auto)]
