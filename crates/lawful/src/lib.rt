// What holds of every call that corrects a page: definitions and proofs, no code.
#![tactic(auto)]
