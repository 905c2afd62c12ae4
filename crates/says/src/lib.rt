// What a page says of itself: its stored tiles, its metadata records and the names of its compression methods, as lists of numbers, the
// look-up of a metadata record by its name and ID, and what its header says of it and of its elements.
#![tactic(auto)]

pub mod further;
pub mod lists;
pub mod metadata;
pub mod methods;
pub mod tiles;
