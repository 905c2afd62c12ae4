// Samples of what corrects a page. It has no functions.
#![tactic(auto)]
