// What the calls that correct a page make of it: definitions and proofs, no code.
#![tactic(auto)]
