// What the products answer, exactly: definitions and proofs, no code.
#![tactic(auto)]
