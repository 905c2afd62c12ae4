// A page byte by byte, for samples. It has no functions.
#![tactic(auto)]
