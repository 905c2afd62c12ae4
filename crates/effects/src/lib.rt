// That the byte stores of each call make the page that the call is to make: definitions and proofs, no code.
#![tactic(auto)]
