// The ways to the record of a tile.
#![tactic(auto)]

pub mod routes;

// A way to the record of a tile: through the tile directory, whose record starts at a position, or by the walk over the records from
// a position on. It is a value that the reads hand on, and no closure: theorems name both ways.
#[derive(Clone, Copy)]
pub enum Route {
    Directory(usize),
    Walk(usize),
}
