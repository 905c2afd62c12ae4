// A score sheet moved into a page and back, and a page moved out to a sheet and back: definitions and proofs, no code.
#![tactic(auto)]
