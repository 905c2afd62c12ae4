// Why a file is refused: the whole check as rows, and the first that is broken.
#![tactic(auto)]

pub mod given;
pub mod list_rows;
pub mod listed;
pub mod over;
pub mod padding;
pub mod tile_directory_rows;
pub mod whole;
