// What the rules of a record depend on, and what an edit of a page keeps: definitions and proofs, no code.
#![tactic(auto)]
