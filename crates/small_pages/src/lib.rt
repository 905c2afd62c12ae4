// Small pages, byte by byte: definitions, no code.
#![tactic(auto)]
