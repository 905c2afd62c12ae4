// Stages 6 to 8 of the check: chain, checksums, bodies of tile and metadata records.
#![tactic(auto)]

pub mod checksum;
pub mod ends;
pub mod faults;
pub mod metadata_body;
pub mod tile_body;

// What a record is judged by, a rule for each stage. It stays an enum: the theorems on edited pages speak of every rule by its name.
#[derive(Clone, Copy)]
pub enum Rule {
    Checksum,
    Body,
}
