// Stages 1 to 5 of the check, and a front by itself. Each takes the bytes and, where it matters, the file's length.
#![tactic(auto)]

pub mod ceilings;
pub mod header_record;
pub mod identification;
pub mod stages;
