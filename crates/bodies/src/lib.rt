// What stands where in the body of each kind of record: tile records, metadata records and the three directories.
#![tactic(auto)]

pub mod list_directories;
pub mod metadata_record;
pub mod tile_directory;
pub mod tile_record;
