// Where a cell lies, and how many bytes things take.
#![tactic(auto)]

pub mod sizes;
pub mod tiles;

// What a length L is, compared with the uncompressed size U.
#[derive(Clone, Copy)]
pub enum Packing {
    Uncompressed,
    Compressed,
    Fault,
}
