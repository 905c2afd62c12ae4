// The scores of the grid put into a lent buffer, over the pieces of a walk: two bytes each, the higher one first. The buffer is what
// stands behind the sheet's first nine bytes.
ghost use Rattle.std.specs.Prelude.{◌≡◌, true, ◌+◌, ◌*◌, ◌/◌, ◌%◌, ◌≤◌, ◌<◌, length, set};
ghost use Rattle.blocks.specs.Tables.{Inside, Filled};
ghost use Rattle.store.specs.Face.{Accepts, AtPiece, Answered};
ghost use Rattle.lay_down.specs.Sheet.{score_element};
ghost use Rattle.sheets.specs.Rows.{AtOrigin, KnownBy, ReadsBy, StoredRow, HasRoom, score_byte};

use crate::read;
use crate::read::{Reading, Run};
use answer::{Held, Refusal};
use store::many::Rectangle;
use store::pieces::Piece;
use store::{many, pieces};

// The two bytes of a score in their places.
fn put_score(out: &mut [u8], at: usize, v: u32)
    requires { at + 2 ≤ length out.old }
    ensures { out.new ≡ set (set out.old at (v / 256 % 256)) (at + 1) (v % 256) }
{
    out[at] = (v / 256 % 256) as u8;
    out[at + 1] = (v % 256) as u8;
}

// The cells of one row of a piece.
fn put_row(
    file: &[u8],
    x: Reading,
    held: Result<Held, Refusal>,
    memory: &[u32],
    a: Rectangle,
    run: Run,
    out: &mut [u8],
)
    requires room { HasRoom a out.old }
    requires inside { (run.row < a.rows) × ((run.left ≤ run.right) × (run.right ≤ a.columns)) }
    requires reads { ReadsBy file.now x held memory.now run }
    ensures { Filled (2 * a.columns) (score_byte file.now x.compressor) (Inside run.row (run.row + 1) (2 * run.left) (2 * run.right)) out.old out.new }
{
    for c in run.left..run.right {
        let cell = read::score_cell(file, x, held, memory, run, c);
        put_score(
            out,
            (2 * (run.row * a.columns + c)) as usize,
            answer::cell_bits(cell),
        );
    }
}

// The same of cells whose two bytes stand one behind the other in the file.
fn put_stored(file: &[u8], compressor: u32, a: Rectangle, from: usize, run: Run, out: &mut [u8])
    requires room { HasRoom a out.old }
    requires inside { (run.row < a.rows) × ((run.left ≤ run.right) × (run.right ≤ a.columns)) }
    requires stored { StoredRow file.now compressor from run.row run.left run.right }
    ensures { Filled (2 * a.columns) (score_byte file.now compressor) (Inside run.row (run.row + 1) (2 * run.left) (2 * run.right)) out.old out.new }
{
    for c in run.left..run.right {
        let v = read::short_at(file, from + (2 * (c - run.left)) as usize);
        put_score(out, (2 * (run.row * a.columns + c)) as usize, v);
    }
}

// The cells of one row of a piece, however they are held.
fn put_run(
    file: &[u8],
    x: Reading,
    held: Result<Held, Refusal>,
    memory: &[u32],
    a: Rectangle,
    run: Run,
    out: &mut [u8],
)
    requires room { HasRoom a out.old }
    requires inside { (run.row < a.rows) × ((run.left ≤ run.right) × (run.right ≤ a.columns)) }
    requires reads { ReadsBy file.now x held memory.now run }
    ensures { Filled (2 * a.columns) (score_byte file.now x.compressor) (Inside run.row (run.row + 1) (2 * run.left) (2 * run.right)) out.old out.new }
{
    let from = read::stored_run(file, held, x.kind, run.start, run.right - run.left);
    if from == 0 {
        put_row(file, x, held, memory, a, run, out);
        return;
    }
    put_stored(file, x.compressor, a, from, run, out);
}

// The rows of a piece.
fn put_piece(
    file: &[u8],
    x: Reading,
    held: Result<Held, Refusal>,
    memory: &[u32],
    a: Rectangle,
    p: Piece,
    out: &mut [u8],
)
    requires known { KnownBy file.now x }
    requires accepts { Accepts file.now a × AtOrigin a }
    requires room { HasRoom a out.old }
    requires at { AtPiece file.now a p }
    requires answered { Answered file.now x.compressor a p held memory.now }
    ensures { Filled (2 * a.columns) (score_byte file.now x.compressor) (Inside p.top p.bottom (2 * p.left) (2 * p.right)) out.old out.new }
{
    for r in p.top..p.bottom {
        let run = Run {
            tile: p.tile,
            start: p.inside + (r - p.top) * x.across,
            row: r,
            left: p.left,
            right: p.right,
        };
        put_run(file, x, held, memory, a, run, out);
    }
}

// One row of -1.
fn put_unread(a: Rectangle, r: u64, left: u64, right: u64, out: &mut [u8])
    requires room { HasRoom a out.old }
    requires inside { (r < a.rows) × ((left ≤ right) × (right ≤ a.columns)) }
    ensures { Filled (2 * a.columns) (λ _ _. 255) (Inside r (r + 1) (2 * left) (2 * right)) out.old out.new }
{
    for j in 2 * left..2 * right {
        out[(r * (2 * a.columns) + j) as usize] = 255;
    }
}

// The rows of a piece whose tile is absent.
fn put_absent(a: Rectangle, p: Piece, out: &mut [u8])
    requires room { HasRoom a out.old }
    requires inside { (p.top ≤ p.bottom) × ((p.bottom ≤ a.rows) × ((p.left ≤ p.right) × (p.right ≤ a.columns))) }
    ensures { Filled (2 * a.columns) (λ _ _. 255) (Inside p.top p.bottom (2 * p.left) (2 * p.right)) out.old out.new }
{
    for r in p.top..p.bottom {
        put_unread(a, r, p.left, p.right, out);
    }
}

// A piece, by what is held of its tile.
fn put_held(file: &[u8], x: Reading, memory: &mut [u32], a: Rectangle, p: Piece, out: &mut [u8])
    requires known { KnownBy file.now x }
    requires accepts { Accepts file.now a × (AtOrigin a × (score_element file.now ≡ true)) }
    requires room { HasRoom a out.old }
    requires at { AtPiece file.now a p }
    ensures { Filled (2 * a.columns) (score_byte file.now x.compressor) (Inside p.top p.bottom (2 * p.left) (2 * p.right)) out.old out.new }
{
    let held = many::hold_lent(file, x.compressor, p.tile, 0, memory);
    if read::is_absent(held) {
        put_absent(a, p, out);
        return;
    }
    put_piece(file, x, held, memory, a, p, out);
}

// All pieces.
pub(crate) fn put_all(
    file: &[u8],
    compressor: u32,
    memory: &mut [u32],
    a: Rectangle,
    out: &mut [u8],
)
    requires accepts { Accepts file.now a × (AtOrigin a × (score_element file.now ≡ true)) }
    requires room { HasRoom a out.old }
    ensures { Filled (2 * a.columns) (score_byte file.now compressor) (Inside 0 a.rows 0 (2 * a.columns)) out.old out.new }
{
    let x = Reading::of(file, compressor);
    let mut p = pieces::first_piece(file, a, 0);
    while p.top < a.rows {
        put_held(file, x, memory, a, p, out);
        p = pieces::next_piece(file, a, p);
    }
}
