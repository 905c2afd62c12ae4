// What is laid down is accepted and reads back: definitions and proofs, no code.
#![tactic(auto)]
