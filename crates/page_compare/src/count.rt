// How many cells differ: in each row of a row of tiles, piece by piece, and in all of them; or the first refusal.
ghost use Rattle.std.specs.Prelude.{◌≡◌, Bool, true, ℕ, ◌+◌, ◌-◌, ◌*◌, ◌≤◌, ◌<◌, length, get_or, eqb};
ghost use Rattle.wire.specs.Lists.{one_if, count_below};
ghost use Rattle.answer.specs.Answers.{held_kind};
ghost use Rattle.store.specs.Face.{tile_columns, tile_rows, Accepts, AtPiece, band_end};
ghost use Rattle.blocks.specs.Folds.{fold_below};
ghost use Rattle.row_lists.specs.Entries.{count_in};
ghost use Rattle.row_lists.specs.Placing.{Counts};
ghost use Rattle.page_compare.specs.Sides.{area_cells, area_differ, area_halt, area_halt_in, area_compared, Both, Ready, BothReady, mark_width, marked, sort_of};
ghost use Rattle.page_compare.specs.Counting.{PlainSays, Small, Added, Counted, Says};

use crate::sides::Side;
use crate::{Pair, marks, sides};
use answer::{Cell, Held, Refusal};
use comparisons::{Comparison, Halt};
use store::many::Rectangle;
use store::pieces::Piece;
use store::{description, many, pieces};

// How the cells of a piece differ: each in the same number of elements, or each by itself.
#[derive(Clone, Copy)]
pub(crate) enum Plain {
    Same(u64),
    Each,
}

// What was counted, or the first refusal.
#[derive(Clone, Copy)]
pub(crate) enum Seen {
    Cells(u64),
    Halted(Halt),
}

// The first cell of a piece, of an element.
fn first_cell(
    file: &[u8],
    compressor: u32,
    memory: &[u32],
    a: Rectangle,
    p: Piece,
    e: u64,
    x: Side,
) -> Result<Cell, Refusal>
    requires accepts { Accepts file.now a }
    requires at { AtPiece file.now a p }
    requires ready { Ready file.now compressor a p e x memory.now }
    ensures { result ≡ area_cells file.now compressor a p.top p.left e }
{
    let held = x.held;
    let from = x.from;
    let to = x.to;
    let m = &memory[from..to];
    let row = a.row + p.top;
    let column = a.column + p.left;
    many::held_cell(file, compressor, held, m, row, column, e)
}

// The refusal of the first cells of a piece, element by element: that of the whole piece.
fn halt_piece(
    first: &[u8],
    second: &[u8],
    q: Pair,
    memory: &[u32],
    a: Rectangle,
    p: Piece,
    xs: [Side; 16],
    ys: [Side; 16],
) -> Halt
    requires both { Both first.now second.now q a }
    requires at { AtPiece first.now a p × AtPiece second.now a p }
    requires ready { BothReady first.now second.now q a p xs ys memory.now }
    ensures { result ≡ area_halt first.now second.now q a p.top p.left }
{
    let mut e = 0;
    while e < q.elements {
        let i = e as usize;
        let x = xs[i];
        let y = ys[i];
        let u = first_cell(first, q.first, memory, a, p, e, x);
        let v = first_cell(second, q.second, memory, a, p, e, y);
        let h = comparisons::cell_halt(u, v);
        match h {
            Halt::None => {
                e += 1;
            }
            Halt::First(_) => {
                return h;
            }
            Halt::Second(_) => {
                return h;
            }
        }
    }
    Halt::None
}

// Whether both tiles are absent.
fn both_absent(x: Result<Held, Refusal>, y: Result<Held, Refusal>) -> bool
    ensures { result ≡ true → (held_kind x ≡ 33) × (held_kind y ≡ 33) }
{
    if answer::held_kind(x) == 33 {
        return answer::held_kind(y) == 33;
    }
    false
}

// How the cells of a piece differ in an element, from its first ones: 0 none, 1 each, 2 each by itself.
fn sort_of(absent: bool, x: Result<Cell, Refusal>, y: Result<Cell, Refusal>) -> u64
    ensures { result ≡ sort_of absent x y }
{
    if comparisons::compared_kind(x) == comparisons::compared_kind(y) {
        if absent {
            if answer::cell_bits(x) == answer::cell_bits(y) {
                return 0;
            }
            return 1;
        }
        return 2;
    }
    1
}

// How the cells of a piece differ.
pub(crate) fn plain_piece(
    first: &[u8],
    second: &[u8],
    q: Pair,
    memory: &[u32],
    a: Rectangle,
    p: Piece,
    xs: [Side; 16],
    ys: [Side; 16],
) -> Plain
    requires both { Both first.now second.now q a }
    requires at { AtPiece first.now a p × AtPiece second.now a p }
    requires ready { BothReady first.now second.now q a p xs ys memory.now }
    ensures { PlainSays (area_differ first.now second.now q a) q.elements p.top p.bottom p.left p.right result }
{
    let mut n = 0;
    let mut e = 0;
    while e < q.elements {
        let i = e as usize;
        let x = xs[i];
        let y = ys[i];
        let u = first_cell(first, q.first, memory, a, p, e, x);
        let v = first_cell(second, q.second, memory, a, p, e, y);
        let h = x.held;
        let g = y.held;
        let sort = sort_of(both_absent(h, g), u, v);
        if sort == 2 {
            return Plain::Each;
        }
        n += sort;
        e += 1;
    }
    Plain::Same(n)
}

// 1 where a mark stands at a place, else 0.
fn mark_count(marks: &[u8], i: usize) -> u64
    requires { i < length marks.now }
    ensures { result ≡ one_if (eqb (get_or marks.now i 0) 1) }
{
    if marks::is_mark(marks, i) {
        return 1;
    }
    0
}

// How many of the numbers from a place on are marks.
fn count_column(marks: &[u8], at: usize, elements: u64) -> u64
    requires { (elements ≤ mark_width) × (at + mark_width ≤ length marks.now) }
    ensures { result ≡ count_below elements (λ e. eqb (get_or marks.now (at + e) 0) 1) }
{
    let mut n = 0;
    let mut e = 0;
    while e < elements {
        n += mark_count(marks, at + e as usize);
        e += 1;
    }
    n
}

// How many marks a row has from `left` to below `right`.
fn count_marks(marks: &[u8], elements: u64, left: u64, right: u64) -> u64
    requires { (elements ≤ mark_width) × ((left ≤ right) × ((right - left) * mark_width ≤ length marks.now)) }
    ensures { result ≡ count_in (marked marks.now left) elements 0 1 left right }
{
    let mut n = 0;
    let mut c = left;
    while c < right {
        let at = ((c - left) * 16) as usize;
        n += count_column(marks, at, elements);
        c += 1;
    }
    n
}

// The rows of a piece: what each has is added to its count.
fn count_rows(
    first: &[u8],
    second: &[u8],
    q: Pair,
    memory: &[u32],
    a: Rectangle,
    p: Piece,
    xs: [Side; 16],
    ys: [Side; 16],
    marks: &mut [u8],
    counts: &mut [u64],
)
    requires both { Both first.now second.now q a }
    requires at { AtPiece first.now a p × AtPiece second.now a p }
    requires ready { BothReady first.now second.now q a p xs ys memory.now }
    requires room { (p.right - p.left) * mark_width ≤ length marks.old }
    requires small { Small p.top p.bottom counts.old }
    ensures { Added (area_differ first.now second.now q a) q.elements p.top p.bottom p.left p.right 0 counts.old counts.new }
{
    let shape = description::shape_of(first);
    let across = shape.tile_columns as u64;
    let mut r = p.top;
    while r < p.bottom {
        let start = p.inside + (r - p.top) * across;
        marks::mark_row(first, second, q, memory, a, p, start, r, xs, ys, marks);
        let n = count_marks(marks, q.elements, p.left, p.right);
        let i = (r - p.top) as usize;
        counts[i] += n;
        r += 1;
    }
}

// A piece whose cells can be read: what each row has is added to its count, and what is given back is to be added to each row alike.
fn count_piece(
    first: &[u8],
    second: &[u8],
    q: Pair,
    memory: &[u32],
    a: Rectangle,
    p: Piece,
    xs: [Side; 16],
    ys: [Side; 16],
    marks: &mut [u8],
    counts: &mut [u64],
) -> u64
    requires both { Both first.now second.now q a }
    requires at { AtPiece first.now a p × AtPiece second.now a p }
    requires ready { BothReady first.now second.now q a p xs ys memory.now }
    requires room { (p.right - p.left) * mark_width ≤ length marks.old }
    requires small { Small p.top p.bottom counts.old }
    ensures { Added (area_differ first.now second.now q a) q.elements p.top p.bottom p.left p.right result counts.old counts.new }
{
    match plain_piece(first, second, q, memory, a, p, xs, ys) {
        Plain::Same(n) => n * (p.right - p.left),
        Plain::Each => {
            count_rows(first, second, q, memory, a, p, xs, ys, marks, counts);
            0
        }
    }
}

// A piece, by what is held of its tile in both pages.
fn count_tile(
    first: &[u8],
    second: &[u8],
    q: Pair,
    memory: &mut [u32],
    a: Rectangle,
    p: Piece,
    cells: u64,
    marks: &mut [u8],
    counts: &mut [u64],
) -> Seen
    requires both { Both first.now second.now q a }
    requires at { AtPiece first.now a p }
    requires cells { cells ≤ 16777216 }
    requires room { (p.right - p.left) * mark_width ≤ length marks.old }
    requires small { Small p.top p.bottom counts.old }
    ensures { Says (area_halt first.now second.now q a p.top p.left) (λ w. Added (area_differ first.now second.now q a) q.elements p.top p.bottom p.left p.right w counts.old counts.new) result }
{
    let half = memory.len() / 2;
    let end = memory.len();
    let n = q.elements;
    let xs = sides::hold_page(first, q.first, a, p, n, cells, memory, 0, half);
    let ys = sides::hold_page(second, q.second, a, p, n, cells, memory, half, end);
    let h = halt_piece(first, second, q, memory, a, p, xs, ys);
    match h {
        Halt::First(_) => Seen::Halted(h),
        Halt::Second(_) => Seen::Halted(h),
        Halt::None => Seen::Cells(count_piece(
            first, second, q, memory, a, p, xs, ys, marks, counts,
        )),
    }
}

// The pieces of the row of tiles that starts at row `top`, whose counts are 0: each row's count lacks what is given back.
fn count_pieces(
    first: &[u8],
    second: &[u8],
    q: Pair,
    memory: &mut [u32],
    a: Rectangle,
    top: u64,
    bottom: u64,
    marks: &mut [u8],
    counts: &mut [u64],
) -> Seen
    requires both { Both first.now second.now q a }
    requires band { (top < a.rows) × (bottom ≡ band_end first.now a top) }
    requires room { (65536 ≤ length marks.old) × (4096 ≤ length counts.old) }
    requires clear { (i : ℕ) → top + i < bottom → get_or counts.old i 0 ≡ 0 }
    ensures { Says (area_halt_in first.now second.now q a top bottom 0 a.columns) (λ w. Counted (area_differ first.now second.now q a) q.elements top bottom a.columns w counts.new) result }
{
    let shape = description::shape_of(first);
    let cells = shape.tile_rows as u64 * (shape.tile_columns as u64);
    let mut every = 0;
    let mut p = pieces::first_piece(first, a, top);
    while p.top < bottom {
        match count_tile(first, second, q, memory, a, p, cells, marks, counts) {
            Seen::Halted(h) => {
                return Seen::Halted(h);
            }
            Seen::Cells(n) => {
                every += n;
                p = pieces::next_piece(first, a, p);
            }
        }
    }
    Seen::Cells(every)
}

// The first n numbers become 0.
fn clear(n: u64, counts: &mut [u64])
    requires { n ≤ length counts.old }
    ensures long { length counts.new ≡ length counts.old }
    ensures zero { (i : ℕ) → i < n → get_or counts.new i 0 ≡ 0 }
{
    let mut i = 0;
    while i < n {
        counts[i as usize] = 0;
        i += 1;
    }
}

// What is to be added to each of the first n numbers is, and their sum.
fn add_to_each(n: u64, every: u64, counts: &mut [u64]) -> u64
    requires n_bound { (n ≤ 4096) × (n ≤ length counts.old) }
    requires small { (i : ℕ) → i < n → get_or counts.old i 0 + every ≤ 1048576 }
    ensures each { (i : ℕ) → i < n → get_or counts.new i 0 ≡ get_or counts.old i 0 + every }
    ensures sum { result ≡ fold_below ◌+◌ 0 n (λ i. get_or counts.old i 0 + every) }
{
    let mut sum = 0;
    let mut i = 0;
    while i < n {
        let k = i as usize;
        let v = counts[k] + every;
        counts[k] = v;
        sum += v;
        i += 1;
    }
    sum
}

// The row of tiles that starts at row `top`: how many cells differ, and how many in each row.
pub(crate) fn count_band(
    first: &[u8],
    second: &[u8],
    q: Pair,
    memory: &mut [u32],
    a: Rectangle,
    top: u64,
    bottom: u64,
    marks: &mut [u8],
    counts: &mut [u64],
) -> Seen
    requires both { Both first.now second.now q a }
    requires band { (top < a.rows) × (bottom ≡ band_end first.now a top) }
    requires room { (65536 ≤ length marks.old) × (4096 ≤ length counts.old) }
    ensures { Says (area_halt_in first.now second.now q a top bottom 0 a.columns) (λ w. (w ≡ count_in (area_differ first.now second.now q a) q.elements top bottom 0 a.columns) × Counts (area_differ first.now second.now q a) q.elements a.columns top bottom counts.new) result }
{
    let n = bottom - top;
    clear(n, counts);
    match count_pieces(first, second, q, memory, a, top, bottom, marks, counts) {
        Seen::Halted(h) => Seen::Halted(h),
        Seen::Cells(every) => Seen::Cells(add_to_each(n, every, counts)),
    }
}

// All rows of tiles.
pub(crate) fn count_all(
    first: &[u8],
    second: &[u8],
    q: Pair,
    memory: &mut [u32],
    a: Rectangle,
    marks: &mut [u8],
    counts: &mut [u64],
) -> Comparison
    requires both { Both first.now second.now q a }
    requires room { (65536 ≤ length marks.old) × (4096 ≤ length counts.old) }
    ensures { result ≡ area_compared first.now second.now q a }
{
    let mut sum = 0;
    let mut top = 0;
    while top < a.rows {
        let bottom = pieces::band_end(first, a, top);
        match count_band(first, second, q, memory, a, top, bottom, marks, counts) {
            Seen::Halted(h) => {
                return comparisons::halted(h);
            }
            Seen::Cells(n) => {
                sum += n;
                top = bottom;
            }
        }
    }
    Comparison::Count(sum)
}
