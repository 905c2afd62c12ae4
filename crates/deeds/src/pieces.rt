// Goes over a rectangle tile by tile, each piece of it that lies in one tile once. Rows and columns count from the rectangle's first.
ghost use Rattle.std.specs.Prelude.{◌≡◌, ◌+◌, ◌-◌, ◌*◌, ◌≤◌, ◌<◌};
ghost use Rattle.answer.specs.Answers.{cell_kind, cell_verdict};
ghost use Rattle.store.specs.Face.{most_grid_side, Accepts, AtPiece, Answered, Ready};
ghost use Rattle.deeds.specs.Deeds.{cells_of};
ghost use Rattle.deeds.specs.Tallies.{tally_in, numbered_tally, cells_held, judged_by, judged_in};

use crate::tally::Tally;
use crate::{Rule, tally};
use answer::{Held, Refusal};
use store::many::Rectangle;
use store::pieces::{HeldPiece, Piece};
use store::{description, many, pieces};

// The cells of one row of a piece, each by its row and column.
fn look_up_row(x: &HeldPiece, rule: Rule, r: u64) -> Tally
    requires ready { Ready x.now }
    requires row { (x.now.p.top ≤ r) × (r < x.now.p.bottom) }
    ensures { result ≡ tally_in rule r (r + 1) x.now.p.left x.now.p.right (cells_held x.now) }
{
    let a = x.a;
    let row = a.row + r;
    let mut t = tally::no_cells();
    for c in x.p.left..x.p.right {
        let cell = many::held_cell(
            x.file,
            x.compressor,
            x.held,
            x.memory,
            row,
            a.column + c,
            a.e,
        );
        t = tally::with_cell(t, cell);
    }
    tally::of_run(rule, t)
}

// n cells of a tile by their numbers inside it, from `start` on.
fn tell_row(x: &HeldPiece, rule: Rule, start: u64, n: u64) -> Tally
    requires { (start + n ≤ 4294967296) × (n ≤ most_grid_side) }
    ensures { result ≡ numbered_tally rule x.now.file.now x.now.kind x.now.fill x.now.held x.now.memory.now x.now.p.tile start n }
{
    let mut t = tally::no_cells();
    for c in 0..n {
        let inside = (start + c) as u32;
        let cell = many::numbered_cell(x.file, x.kind, x.fill, x.held, x.memory, x.p.tile, inside);
        t = tally::with_cell(t, cell);
    }
    tally::of_run(rule, t)
}

// The cells of one row of a piece.
fn tally_row(x: &HeldPiece, rule: Rule, r: u64) -> Tally
    requires ready { Ready x.now }
    requires row { (x.now.p.top ≤ r) × (r < x.now.p.bottom) }
    ensures { result ≡ tally_in rule r (r + 1) x.now.p.left x.now.p.right (cells_held x.now) }
{
    if answer::held_kind(x.held) == 0 {
        return look_up_row(x, rule, r);
    }
    let start = x.p.inside + (r - x.p.top) * x.across;
    tell_row(x, rule, start, x.p.right - x.p.left)
}

// The rows of a piece.
fn tally_piece(x: &HeldPiece, rule: Rule) -> Tally
    requires { Ready x.now }
    ensures { result ≡ tally_in rule x.now.p.top x.now.p.bottom x.now.p.left x.now.p.right (cells_held x.now) }
{
    let mut t = tally::of_fills(0);
    for r in x.p.top..x.p.bottom {
        let u = tally_row(x, rule, r);
        t = tally::join(t, u);
    }
    t
}

// A piece whose first cell is not refused and has a kind: where that is a fill all are, and none is visited.
fn tally_tile(
    file: &[u8],
    compressor: u32,
    held: Result<Held, Refusal>,
    memory: &[u32],
    a: Rectangle,
    rule: Rule,
    kind: u32,
    p: Piece,
) -> Tally
    requires accepts { Accepts file.now a }
    requires at { AtPiece file.now a p }
    requires kind { kind ≡ cell_kind (cells_of file.now compressor a.e a.row a.column p.top p.left) }
    requires answered { Answered file.now compressor a p held memory.now }
    ensures { result ≡ tally_in rule p.top p.bottom p.left p.right (cells_of file.now compressor a.e a.row a.column) }
{
    if kind == 33 {
        return tally::of_fills((p.bottom - p.top) * (p.right - p.left));
    }
    let x = HeldPiece {
        file,
        compressor,
        a,
        p,
        held,
        memory,
        kind: description::kind_of(file, a.e),
        fill: description::fill_pattern(file, a.e),
        across: description::shape_of(file).tile_columns as u64,
    };
    tally_piece(&x, rule)
}

// A piece, by what is held of its tile: refused as its first cell is.
fn judge_tile(
    file: &[u8],
    compressor: u32,
    memory: &mut [u32],
    a: Rectangle,
    rule: Rule,
    p: Piece,
) -> Result<Tally, Refusal>
    requires accepts { Accepts file.now a }
    requires at { AtPiece file.now a p }
    ensures { result ≡ judged_by (cell_verdict (cells_of file.now compressor a.e a.row a.column p.top p.left)) (tally_in rule p.top p.bottom p.left p.right (cells_of file.now compressor a.e a.row a.column)) }
{
    let held = many::hold_lent(file, compressor, p.tile, a.e, memory);
    let row = a.row + p.top;
    let column = a.column + p.left;
    let cell = many::held_cell(file, compressor, held, memory, row, column, a.e);
    answer::cell_verdict(cell)?;
    let kind = answer::cell_kind(cell);
    Ok(tally_tile(file, compressor, held, memory, a, rule, kind, p))
}

// All pieces: what was counted, or the first refusal.
pub(crate) fn judge_all(
    file: &[u8],
    compressor: u32,
    memory: &mut [u32],
    a: Rectangle,
    rule: Rule,
) -> Result<Tally, Refusal>
    requires { Accepts file.now a }
    ensures { result ≡ judged_in rule 0 a.rows 0 a.columns (cells_of file.now compressor a.e a.row a.column) }
{
    let mut t = tally::of_fills(0);
    let mut p = pieces::first_piece(file, a, 0);
    while p.top < a.rows {
        let u = judge_tile(file, compressor, memory, a, rule, p)?;
        t = tally::join(t, u);
        p = pieces::next_piece(file, a, p);
    }
    Ok(t)
}
