// Goes over a rectangle tile by tile, each piece of it that lies in one tile once. Rows and columns count from the rectangle's first.
ghost use Rattle.std.specs.Prelude.{◌≡◌, ◌+◌, ◌-◌, ◌*◌, ◌≤◌, ◌<◌, length, set};
ghost use Rattle.answer.specs.Answers.{cell_kind, cell_bits};
ghost use Rattle.store.specs.Face.{Accepts, AtPiece, Ready, Numbered};
ghost use Rattle.blocks.specs.Tables.{Inside};
ghost use Rattle.rectangles.specs.Pieces.{HasRoom, Told};

use answer::{Cell, Refusal};
use store::many::Rectangle;
use store::pieces::{HeldPiece, Piece};
use store::{description, many, pieces};

// The kind and the bits of a cell in their places.
fn put_cell(x: Result<Cell, Refusal>, i: usize, kinds: &mut [u32], bits: &mut [u32])
    requires { (i < length kinds.old) × (i < length bits.old) }
    ensures kinds { kinds.new ≡ set kinds.old i (cell_kind x) }
    ensures bits { bits.new ≡ set bits.old i (cell_bits x) }
{
    kinds[i] = answer::cell_kind(x);
    bits[i] = answer::cell_bits(x);
}

// The cells of one row of a piece, each by its row and column.
fn look_up_row(x: &HeldPiece, r: u64, kinds: &mut [u32], bits: &mut [u32])
    requires fits { HasRoom x.now.a kinds.old bits.old }
    requires ready { Ready x.now }
    requires row { (x.now.p.top ≤ r) × (r < x.now.p.bottom) }
    ensures { Told x.now.file.now x.now.compressor x.now.a (Inside r (r + 1) x.now.p.left x.now.p.right) kinds.old kinds.new bits.old bits.new }
{
    let a = x.a;
    let first = r * a.columns;
    let row = a.row + r;
    for c in x.p.left..x.p.right {
        let cell = many::held_cell(
            x.file,
            x.compressor,
            x.held,
            x.memory,
            row,
            a.column + c,
            a.e,
        );
        put_cell(cell, (first + c) as usize, kinds, bits);
    }
}

// The cells of one row of a piece, by the number inside the tile of the first.
fn tell_row(x: &HeldPiece, start: u64, r: u64, kinds: &mut [u32], bits: &mut [u32])
    requires fits { HasRoom x.now.a kinds.old bits.old }
    requires inside { (r < x.now.a.rows) × ((x.now.p.left ≤ x.now.p.right) × (x.now.p.right ≤ x.now.a.columns)) }
    requires numbered { Numbered x.now.file.now x.now.compressor x.now.a x.now.held x.now.memory.now x.now.kind x.now.fill x.now.p.tile start r x.now.p.left x.now.p.right }
    ensures { Told x.now.file.now x.now.compressor x.now.a (Inside r (r + 1) x.now.p.left x.now.p.right) kinds.old kinds.new bits.old bits.new }
{
    let left = x.p.left;
    for c in left..x.p.right {
        let inside = (start + (c - left)) as u32;
        let cell = many::numbered_cell(x.file, x.kind, x.fill, x.held, x.memory, x.p.tile, inside);
        put_cell(cell, (r * x.a.columns + c) as usize, kinds, bits);
    }
}

// The cells of one row of a piece.
fn fill_row(x: &HeldPiece, r: u64, kinds: &mut [u32], bits: &mut [u32])
    requires fits { HasRoom x.now.a kinds.old bits.old }
    requires ready { Ready x.now }
    requires row { (x.now.p.top ≤ r) × (r < x.now.p.bottom) }
    ensures { Told x.now.file.now x.now.compressor x.now.a (Inside r (r + 1) x.now.p.left x.now.p.right) kinds.old kinds.new bits.old bits.new }
{
    if answer::held_kind(x.held) == 0 {
        look_up_row(x, r, kinds, bits);
        return;
    }
    let start = x.p.inside + (r - x.p.top) * x.across;
    tell_row(x, start, r, kinds, bits);
}

// The rows of a piece.
fn fill_piece(x: &HeldPiece, kinds: &mut [u32], bits: &mut [u32])
    requires fits { HasRoom x.now.a kinds.old bits.old }
    requires ready { Ready x.now }
    ensures { Told x.now.file.now x.now.compressor x.now.a (Inside x.now.p.top x.now.p.bottom x.now.p.left x.now.p.right) kinds.old kinds.new bits.old bits.new }
{
    for r in x.p.top..x.p.bottom {
        fill_row(x, r, kinds, bits);
    }
}

// A piece, by what is held of its tile.
fn fill_tile(
    file: &[u8],
    compressor: u32,
    memory: &mut [u32],
    a: Rectangle,
    p: Piece,
    kinds: &mut [u32],
    bits: &mut [u32],
)
    requires accepts { Accepts file.now a }
    requires fits { HasRoom a kinds.old bits.old }
    requires at { AtPiece file.now a p }
    ensures { Told file.now compressor a (Inside p.top p.bottom p.left p.right) kinds.old kinds.new bits.old bits.new }
{
    let held = many::hold_lent(file, compressor, p.tile, a.e, memory);
    let x = HeldPiece {
        file,
        compressor,
        a,
        p,
        held,
        memory,
        kind: description::kind_of(file, a.e),
        fill: description::fill_pattern(file, a.e),
        across: description::shape_of(file).tile_columns as u64,
    };
    fill_piece(&x, kinds, bits);
}
// All pieces.
pub(crate) fn fill_all(
    file: &[u8],
    compressor: u32,
    memory: &mut [u32],
    a: Rectangle,
    kinds: &mut [u32],
    bits: &mut [u32],
)
    requires accepts { Accepts file.now a }
    requires fits { HasRoom a kinds.old bits.old }
    ensures { Told file.now compressor a (Inside 0 a.rows 0 a.columns) kinds.old kinds.new bits.old bits.new }
{
    let mut p = pieces::first_piece(file, a, 0);
    while p.top < a.rows {
        fill_tile(file, compressor, memory, a, p, kinds, bits);
        p = pieces::next_piece(file, a, p);
    }
}
