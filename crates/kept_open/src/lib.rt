// That a page stays open for writing when a tile is stored or removed, and which tiles it has then: definitions and proofs, no code.
#![tactic(auto)]
