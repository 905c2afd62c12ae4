// The first half of the check: stages 1 to 5, from the first bytes of a file and its stated length.
#![tactic(auto)]

pub mod start;
