// The greatest weight of the grid's cells, over the pieces of a walk.
ghost use Rattle.std.specs.Prelude.{◌≡◌, true, ◌+◌, ◌≤◌, ◌<◌};
ghost use Rattle.store.specs.Face.{Accepts, AtPiece, Answered};
ghost use Rattle.lay_down.specs.Sheet.{score_element};
ghost use Rattle.sheets.specs.First.{heaviest};
ghost use Rattle.sheets.specs.Rows.{AtOrigin, KnownBy, grid_fault, ReadsBy, Sides};

use crate::read;
use crate::read::{Reading, Run};
use answer::{Held, Refusal};
use store::many::Rectangle;
use store::pieces::Piece;
use store::{many, pieces};

// The cells of one row of a piece.
fn weigh_row(
    file: &[u8],
    x: Reading,
    held: Result<Held, Refusal>,
    memory: &[u32],
    a: Rectangle,
    run: Run,
) -> u64
    requires sides { Sides a.rows a.columns }
    requires inside { (run.row < a.rows) × ((run.left ≤ run.right) × (run.right ≤ a.columns)) }
    requires reads { ReadsBy file.now x held memory.now run }
    ensures { result ≡ heaviest a.rows a.columns (grid_fault file.now x.compressor) run.row (run.row + 1) run.left run.right }
{
    let mut w: u64 = 0;
    for c in run.left..run.right {
        let cell = read::score_cell(file, x, held, memory, run, c);
        let behind = (a.rows - run.row) * a.columns - c;
        w = w.max(read::weight_of(cell, behind));
    }
    w
}

// The same, and without a look at each cell where all are stored and scores.
fn weigh_run(
    file: &[u8],
    x: Reading,
    held: Result<Held, Refusal>,
    memory: &[u32],
    a: Rectangle,
    run: Run,
) -> u64
    requires sides { Sides a.rows a.columns }
    requires inside { (run.row < a.rows) × ((run.left ≤ run.right) × (run.right ≤ a.columns)) }
    requires reads { ReadsBy file.now x held memory.now run }
    ensures { result ≡ heaviest a.rows a.columns (grid_fault file.now x.compressor) run.row (run.row + 1) run.left run.right }
{
    if read::run_clean(file, held, x.kind, run.start, run.right - run.left) {
        return 0;
    }
    weigh_row(file, x, held, memory, a, run)
}

// The rows of a piece.
fn weigh_piece(
    file: &[u8],
    x: Reading,
    held: Result<Held, Refusal>,
    memory: &[u32],
    a: Rectangle,
    p: Piece,
) -> u64
    requires known { KnownBy file.now x }
    requires accepts { Accepts file.now a × AtOrigin a }
    requires sides { Sides a.rows a.columns }
    requires at { AtPiece file.now a p }
    requires answered { Answered file.now x.compressor a p held memory.now }
    ensures { result ≡ heaviest a.rows a.columns (grid_fault file.now x.compressor) p.top p.bottom p.left p.right }
{
    let mut w: u64 = 0;
    for r in p.top..p.bottom {
        let run = Run {
            tile: p.tile,
            start: p.inside + (r - p.top) * x.across,
            row: r,
            left: p.left,
            right: p.right,
        };
        let row = weigh_run(file, x, held, memory, a, run);
        w = w.max(row);
    }
    w
}

// A piece, by what is held of its tile: where that is absent each cell is -1, and none is visited.
fn weigh_tile(file: &[u8], x: Reading, memory: &mut [u32], a: Rectangle, p: Piece) -> u64
    requires known { KnownBy file.now x }
    requires accepts { Accepts file.now a × AtOrigin a }
    requires sides { Sides a.rows a.columns × (score_element file.now ≡ true) }
    requires at { AtPiece file.now a p }
    ensures { result ≡ heaviest a.rows a.columns (grid_fault file.now x.compressor) p.top p.bottom p.left p.right }
{
    let held = many::hold_lent(file, x.compressor, p.tile, 0, memory);
    if read::is_absent(held) {
        return 0;
    }
    weigh_piece(file, x, held, memory, a, p)
}

// All pieces.
pub(crate) fn weigh_all(file: &[u8], compressor: u32, memory: &mut [u32], a: Rectangle) -> u64
    requires accepts { Accepts file.now a × AtOrigin a }
    requires sides { Sides a.rows a.columns × (score_element file.now ≡ true) }
    ensures { result ≡ heaviest a.rows a.columns (grid_fault file.now compressor) 0 a.rows 0 a.columns }
{
    let x = Reading::of(file, compressor);
    let mut w: u64 = 0;
    let mut p = pieces::first_piece(file, a, 0);
    while p.top < a.rows {
        let piece = weigh_tile(file, x, memory, a, p);
        w = w.max(piece);
        p = pieces::next_piece(file, a, p);
    }
    w
}
