// That a cut after any byte store leaves the old page, the new page, or a file refused with 5: definitions and proofs, no code.
#![tactic(auto)]
