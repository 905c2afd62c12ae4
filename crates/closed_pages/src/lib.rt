// That a page which was open for writing is accepted once it is closed, and keeps its tiles: definitions and proofs, no code.
#![tactic(auto)]
