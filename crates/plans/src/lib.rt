// Plans of new starts for the records of an open page (Req 11): whether one is right, the tight one, and a plan that holds both starts of
// each record for a while.
#![tactic(auto)]

pub mod checking;
pub mod kept;
pub mod packing;
pub mod tight;
