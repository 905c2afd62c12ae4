// That an accepted file is open for writing once it is opened, and keeps its tiles: definitions and proofs, no code.
#![tactic(auto)]
