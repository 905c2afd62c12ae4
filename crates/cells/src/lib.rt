// Cells: what one means, the routes to its tile's record, the reader of a record, and an element's content.
#![tactic(auto)]

pub mod asked;
mod held;
pub mod lookups;
pub mod many;
pub mod reads;
pub mod tile_cells;
