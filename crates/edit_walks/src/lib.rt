// The walks over the records of a page that correcting it takes (Req 03): one that frees records and joins what is free, one that looks
// where a new record goes, and what is asked of a tile before it is stored or removed.
//
// The first writes the page while it reads it: it writes behind the cursor alone, so what is still to be read is as it was.
#![tactic(auto)]

pub mod freeing;
pub mod places;
pub mod stored;

// Which records are freed: the tile records with an index, or what opening frees; whether the page's tile directory is full is handed
// on. It is no closure: the walk writes the page while it reads it, so a closure could not hold the page, and the line would be longer.
#[derive(Clone, Copy)]
pub enum Wanted {
    Tile(u32),
    Unwanted(bool),
}

// Where a new record goes, and the length of the free record that takes it; at the end, as long as it is.
#[derive(Clone, Copy)]
pub struct Spot {
    pub at: usize,
    pub room: usize,
}
