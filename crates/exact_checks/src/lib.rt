// What the check answers, exactly: definitions and proofs, no code.
#![tactic(auto)]
