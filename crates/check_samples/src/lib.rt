// Samples of the check. It has no functions.
#![tactic(auto)]
