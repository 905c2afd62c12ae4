// Samples of what a page says. It has no functions.
#![tactic(auto)]
