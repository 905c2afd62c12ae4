// The pieces of a record and of a tile directory, put into a lent buffer. They are total: what does not fit whole is not written. A
// writer closes its records over the buffer's own bytes.
#![tactic(auto)]

pub mod directory;
pub mod pieces;
