// Stage 9 of the check: the file-space and metadata directories, which list records, and the stage whole.
#![tactic(auto)]

pub mod file_space;
pub mod lists;
pub mod metadata;
pub mod stage;

// The two lists: of the free-space records, and of the metadata records.
#[derive(Clone, Copy)]
pub enum ListKind {
    FreeSpace,
    Metadata,
}
