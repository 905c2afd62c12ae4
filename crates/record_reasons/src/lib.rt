// Why a file is refused: stages 6 to 8, the records one by one.
#![tactic(auto)]

pub mod chain_rows;
pub mod ends;
pub mod metadata_rows;
pub mod records;
pub mod tile_rows;
