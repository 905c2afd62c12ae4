// Which elements differ in each column of a row of a piece, as marks: 16 numbers for a column, 1 for an element that differs, else 0.
ghost use Rattle.std.specs.Prelude.{◌≡◌, true, ◌+◌, ◌-◌, ◌*◌, ◌≤◌, ◌<◌, length, get_or, set, eqb};
ghost use Rattle.wire.specs.Lists.{one_if};
ghost use Rattle.answer.specs.Answers.{held_kind};
ghost use Rattle.store.specs.Face.{tile_columns, AtPiece};
ghost use Rattle.blocks.specs.Tables.{Inside, Filled};
ghost use Rattle.comparisons.specs.Comparisons.{differ};
ghost use Rattle.page_compare.specs.Sides.{Both, Ready, BothReady, mark_width, row_mark, numbered_mark, held_mark};

use crate::Pair;
use crate::sides::Side;
use answer::{Cell, Held, Refusal};
use store::many;
use store::many::Rectangle;
use store::pieces::Piece;

fn mark_of(x: Result<Cell, Refusal>, y: Result<Cell, Refusal>) -> u8
    ensures { result ≡ one_if (differ x y) }
{
    if comparisons::differs(x, y) {
        return 1;
    }
    0
}

// The mark of two cells in its place.
fn put_mark(x: Result<Cell, Refusal>, y: Result<Cell, Refusal>, i: usize, marks: &mut [u8])
    requires { i < length marks.old }
    ensures { marks.new ≡ set marks.old i (one_if (differ x y)) }
{
    marks[i] = mark_of(x, y);
}

// Whether a mark stands at a place.
pub(crate) fn is_mark(marks: &[u8], i: usize) -> bool
    requires { i < length marks.now }
    ensures { result ≡ eqb (get_or marks.now i 0) 1 }
{
    marks[i] == 1
}

// An element in n columns of a row, by a tile and the numbers inside it from `start` on.
fn tell_marks(
    first: &[u8],
    second: &[u8],
    x: Side,
    y: Side,
    m: &[u32],
    l: &[u32],
    tile: u64,
    start: u64,
    n: u64,
    e: u64,
    marks: &mut [u8],
)
    requires { (start + n ≤ 4294967296) × ((e < mark_width) × (n * mark_width ≤ length marks.old)) }
    ensures { Filled mark_width (numbered_mark first.now second.now x y m.now l.now tile start) (Inside 0 n e (e + 1)) marks.old marks.new }
{
    let h = x.held;
    let g = y.held;
    let mut c = 0;
    while c < n {
        let inside = (start + c) as u32;
        let u = many::numbered_cell(first, x.kind, x.fill, h, m, tile, inside);
        let v = many::numbered_cell(second, y.kind, y.fill, g, l, tile, inside);
        put_mark(u, v, (c * 16 + e) as usize, marks);
        c += 1;
    }
}

// An element in n columns of a row from `left` on, each cell by its row and column.
fn look_up_marks(
    first: &[u8],
    second: &[u8],
    q: Pair,
    a: Rectangle,
    x: Result<Held, Refusal>,
    y: Result<Held, Refusal>,
    m: &[u32],
    l: &[u32],
    r: u64,
    left: u64,
    n: u64,
    e: u64,
    marks: &mut [u8],
)
    requires small { (a.row + r < 4294967296) × (a.column + left + n < 4294967296) }
    requires e_lt_mark_width { (e < mark_width) × (n * mark_width ≤ length marks.old) }
    ensures { Filled mark_width (held_mark first.now second.now q a x y m.now l.now r left e) (Inside 0 n e (e + 1)) marks.old marks.new }
{
    let row = a.row + r;
    let mut c = 0;
    while c < n {
        let column = a.column + (left + c);
        let u = many::held_cell(first, q.first, x, m, row, column, e);
        let v = many::held_cell(second, q.second, y, l, row, column, e);
        put_mark(u, v, (c * 16 + e) as usize, marks);
        c += 1;
    }
}

// Whether neither is looked up cell by cell.
fn both_told(x: Result<Held, Refusal>, y: Result<Held, Refusal>) -> bool
    ensures { result ≡ true → (held_kind x ≡ 0 → ⊥) × (held_kind y ≡ 0 → ⊥) }
{
    if answer::held_kind(x) == 0 {
        return false;
    }
    if answer::held_kind(y) == 0 {
        return false;
    }
    true
}

// An element in a row of a piece. `start` is the number inside the tile of the row's first cell.
fn mark_element(
    first: &[u8],
    second: &[u8],
    q: Pair,
    memory: &[u32],
    a: Rectangle,
    p: Piece,
    start: u64,
    r: u64,
    e: u64,
    x: Side,
    y: Side,
    marks: &mut [u8],
)
    requires both { Both first.now second.now q a }
    requires at { AtPiece first.now a p }
    requires row { ((p.top ≤ r) × (r < p.bottom)) × (start ≡ p.inside + (r - p.top) * tile_columns first.now) }
    requires there { (e < q.elements) × ((p.right - p.left) * mark_width ≤ length marks.old) }
    requires ready { Ready first.now q.first a p e x memory.now × Ready second.now q.second a p e y memory.now }
    ensures { Filled mark_width (row_mark first.now second.now q a r p.left) (Inside 0 (p.right - p.left) e (e + 1)) marks.old marks.new }
{
    let n = p.right - p.left;
    let from = x.from;
    let to = x.to;
    let m = &memory[from..to];
    let low = y.from;
    let high = y.to;
    let l = &memory[low..high];
    let h = x.held;
    let g = y.held;
    if both_told(h, g) {
        tell_marks(first, second, x, y, m, l, p.tile, start, n, e, marks);
        return;
    }
    look_up_marks(first, second, q, a, h, g, m, l, r, p.left, n, e, marks);
}

// All elements in a row of a piece.
pub(crate) fn mark_row(
    first: &[u8],
    second: &[u8],
    q: Pair,
    memory: &[u32],
    a: Rectangle,
    p: Piece,
    start: u64,
    r: u64,
    xs: [Side; 16],
    ys: [Side; 16],
    marks: &mut [u8],
)
    requires both { Both first.now second.now q a }
    requires at { AtPiece first.now a p }
    requires row { ((p.top ≤ r) × (r < p.bottom)) × (start ≡ p.inside + (r - p.top) * tile_columns first.now) }
    requires room { (p.right - p.left) * mark_width ≤ length marks.old }
    requires ready { BothReady first.now second.now q a p xs ys memory.now }
    ensures { Filled mark_width (row_mark first.now second.now q a r p.left) (Inside 0 (p.right - p.left) 0 q.elements) marks.old marks.new }
{
    let mut e = 0;
    while e < q.elements {
        let i = e as usize;
        let x = xs[i];
        let y = ys[i];
        mark_element(first, second, q, memory, a, p, start, r, e, x, y, marks);
        e += 1;
    }
}
