// Whether metadata records have distinct pairs of name and ID.
#![tactic(auto)]

mod ends;
pub mod keys;
mod ranked;
mod rounds;
