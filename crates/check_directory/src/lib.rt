// Stage 9 of the check: references, and the tile directory.
#![tactic(auto)]

pub mod references;
pub mod tile_rules;
