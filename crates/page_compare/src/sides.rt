// What is held of the elements of a tile, each with its own part of the memory that was lent.
ghost use Rattle.std.specs.Prelude.{◌≡◌, ◌≤◌, ◌<◌, length, Ok};
ghost use Rattle.store.specs.Face.{tile_count, element_count, check, Holds, Accepts, AtPiece};
ghost use Rattle.page_compare.specs.Sides.{part_of, Changed, PartFor, Ready, PageReady};

use answer::{Held, Refusal};
use store::many::Rectangle;
use store::pieces::Piece;
use store::{description, many};

// An element: what is held of it in a tile, its type code and fill, and the part of the memory that has its unpacked cells.
#[derive(Clone, Copy)]
pub(crate) struct Side {
    pub held: Result<Held, Refusal>,
    pub kind: u32,
    pub fill: u32,
    pub from: usize,
    pub to: usize,
}

// What is held of an element, with a part of the memory: what stands before and behind it stays.
fn hold_in(
    file: &[u8],
    compressor: u32,
    tile: u64,
    e: u64,
    memory: &mut [u32],
    a: usize,
    b: usize,
) -> Result<Held, Refusal>
    requires { (a ≤ b) × (b ≤ length memory.old) }
    ensures changed { Changed a b memory.old memory.new }
    ensures holds { check file.now ≡ Ok tt → tile < tile_count file.now → e < element_count file.now → Holds file.now compressor tile e result (part_of memory.new a b) }
{
    many::hold_lent(file, compressor, tile, e, &mut memory[a..b])
}

// An element with a part of the memory.
fn side_in(
    file: &[u8],
    compressor: u32,
    a: Rectangle,
    p: Piece,
    e: u64,
    memory: &mut [u32],
    from: usize,
    to: usize,
) -> Side
    requires accepts { Accepts file.now a }
    requires at { AtPiece file.now a p }
    requires there { e < element_count file.now }
    requires part { (from ≤ to) × (to ≤ length memory.old) }
    ensures ready { Ready file.now compressor a p e result memory.new }
    ensures part { (result.from ≡ from) × (result.to ≡ to) }
    ensures changed { Changed from to memory.old memory.new }
{
    let kind = description::kind_of(file, e);
    let fill = description::fill_pattern(file, e);
    let held = hold_in(file, compressor, p.tile, e, memory, from, to);
    Side {
        held,
        kind,
        fill,
        from,
        to,
    }
}

// One element of a tile of so many cells: its part is the e-th from `low` on, where that lies below `high`; else it has none.
fn hold_side(
    file: &[u8],
    compressor: u32,
    a: Rectangle,
    p: Piece,
    e: u64,
    cells: u64,
    memory: &mut [u32],
    low: usize,
    high: usize,
) -> Side
    requires accepts { Accepts file.now a }
    requires at { AtPiece file.now a p }
    requires there { (e < element_count file.now) × ((e < 16) × (cells ≤ 16777216)) }
    requires part { (low ≤ high) × (high ≤ length memory.old) }
    ensures ready { Ready file.now compressor a p e result memory.new }
    ensures part { PartFor e cells low high result.from result.to }
    ensures changed { Changed result.from result.to memory.old memory.new }
{
    let first = (e * cells) as usize;
    let end = first + cells as usize;
    if end <= high - low {
        return side_in(file, compressor, a, p, e, memory, low + first, low + end);
    }
    side_in(file, compressor, a, p, e, memory, low, low)
}

// All elements.
pub(crate) fn hold_page(
    file: &[u8],
    compressor: u32,
    a: Rectangle,
    p: Piece,
    n: u64,
    cells: u64,
    memory: &mut [u32],
    low: usize,
    high: usize,
) -> [Side; 16]
    requires accepts { Accepts file.now a }
    requires at { AtPiece file.now a p }
    requires elements { (n ≡ element_count file.now) × ((n ≤ 16) × (cells ≤ 16777216)) }
    requires part { (low ≤ high) × (high ≤ length memory.old) }
    ensures ready { PageReady file.now compressor a p n low high result memory.new }
    ensures changed { Changed low high memory.old memory.new }
{
    let mut xs = [Side {
        held: Ok(Held::Stored(0)),
        kind: 0,
        fill: 0,
        from: 0,
        to: 0,
    }; 16];
    let mut e = 0;
    while e < n {
        let x = hold_side(file, compressor, a, p, e, cells, memory, low, high);
        let i = e as usize;
        xs[i] = x;
        e += 1;
    }
    xs
}
