// The cells of a piece, and whether one is a score.
ghost use Rattle.std.specs.Prelude.{◌≡◌, true, ◌+◌, ◌-◌, ◌*◌, ◌%◌, ◌≤◌, ◌<◌, length, eqb};
ghost use Rattle.wire.specs.Pick.{pick};
ghost use Rattle.wire.specs.Bytes.{number_at};
ghost use Rattle.wire.specs.Tests.{both};
ghost use Rattle.score_sheets.specs.Sheet.{score_right};
ghost use Rattle.answer.specs.Answers.{held_kind};
ghost use Rattle.store.specs.Face.{held_cell, numbered_cell};
ghost use Rattle.sheets.specs.Back as back;
ghost use Rattle.sheets.specs.First.{is_fault};
ghost use Rattle.sheets.specs.Rows.{KnownBy, is_absent, run_right, StoredRun, CleanRun};

use answer::{Cell, Held, Refusal};
use store::{description, many};

// How the cells of a page's first element are read: the compressor index of its packed tiles, its type code and fill pattern, and the
// columns of a tile.
#[derive(Clone, Copy)]
pub(crate) struct Reading {
    pub(crate) compressor: u32,
    pub(crate) kind: u32,
    pub(crate) fill: u32,
    pub(crate) across: u64,
}

impl Reading {
    pub(crate) fn of(file: &[u8], compressor: u32) -> Reading
        ensures same { result.compressor ≡ compressor }
        ensures known { KnownBy file.now result }
    {
        Reading {
            compressor,
            kind: description::kind_of(file, 0),
            fill: description::fill_pattern(file, 0),
            across: description::shape_of(file).tile_columns as u64,
        }
    }
}

// Cells of one row of the grid that lie in one tile: the tile, the row, the columns, and the first cell's number inside the tile.
#[derive(Clone, Copy)]
pub(crate) struct Run {
    pub(crate) tile: u64,
    pub(crate) start: u64,
    pub(crate) row: u64,
    pub(crate) left: u64,
    pub(crate) right: u64,
}

// A cell of a run, told from what is held of its tile: by its number inside that, or looked up by itself.
pub(crate) fn score_cell(
    file: &[u8],
    x: Reading,
    held: Result<Held, Refusal>,
    memory: &[u32],
    run: Run,
    column: u64,
) -> Result<Cell, Refusal>
    requires { (run.left ≤ column) × (run.start + (column - run.left) < 4294967296) }
    ensures { result ≡ pick (eqb (held_kind held) 0) (held_cell file.now x.compressor held memory.now run.row column 0) (numbered_cell file.now x.kind x.fill memory.now run.tile (run.start + (column - run.left)) held) }
{
    if answer::held_kind(held) == 0 {
        return many::held_cell(file, x.compressor, held, memory, run.row, column, 0);
    }
    let inside = run.start + (column - run.left);
    many::numbered_cell(file, x.kind, x.fill, held, memory, run.tile, inside as u32)
}

// Whether no cell of the tile is stored.
pub(crate) fn is_absent(held: Result<Held, Refusal>) -> bool
    ensures { result ≡ is_absent held }
{
    match held {
        Ok(Held::Stored(_)) => false,
        Ok(Held::Unpacked(_)) => false,
        Ok(Held::Absent) => true,
        Ok(Held::Alone) => false,
        Err(_) => false,
    }
}

// Where n Shorts from the one with a number on start in a content; 0 where they do not lie whole in the file.
fn run_from(file: &[u8], content: usize, start: u64, n: u64) -> usize
    requires { start + n ≤ 4294967296 }
    ensures { 1 ≤ result → (content + 1 ≤ length file.now) × ((result ≡ content + 2 * start) × (result + 2 * n ≤ length file.now)) }
{
    if file.len() <= content {
        return 0;
    }
    let left = (file.len() - content) as u64;
    if left < 2 * (start + n) {
        return 0;
    }
    content + (2 * start) as usize
}

// Where n cells of a tile start in the file, from the one with a number inside it on; 0 where they are no stored Shorts.
pub(crate) fn stored_run(
    file: &[u8],
    held: Result<Held, Refusal>,
    kind: u32,
    start: u64,
    n: u64,
) -> usize
    requires { start + n ≤ 4294967296 }
    ensures { 1 ≤ result → StoredRun file.now held kind start n result }
{
    if kind != 3 {
        return 0;
    }
    let Ok(held) = held else {
        return 0;
    };
    match held {
        Held::Stored(content) => run_from(file, content, start, n),
        Held::Unpacked(_) => 0,
        Held::Absent => 0,
        Held::Alone => 0,
    }
}

// The bits of a Short that lies whole in the file: read without a test, so that a loop takes several in a step.
pub(crate) fn short_at(file: &[u8], at: usize) -> u32
    requires { at + 2 ≤ length file.now }
    ensures { result ≡ number_at 2 file.now at % 65536 }
{
    let v = file[at] as u16 + 256 * (file[at + 1] as u16);
    v as u32
}

// Whether what is right so far is right with 16 bits more.
fn right_with(right: bool, v: u32) -> bool
    ensures { result ≡ both right (score_right v) }
{
    if score_sheets::score_right(v) {
        return right;
    }
    false
}

// Whether n Shorts are scores. It reads all of them, also where the first is none.
fn run_right(file: &[u8], from: usize, n: u64) -> bool
    requires { from + 2 * n ≤ length file.now }
    ensures { result ≡ run_right file.now from n }
{
    let mut right = true;
    for i in 0..n {
        right = right_with(right, short_at(file, from + (2 * i) as usize));
    }
    right
}

// Whether n cells of a tile are stored Shorts and scores, as far as that is seen from their bytes.
pub(crate) fn run_clean(
    file: &[u8],
    held: Result<Held, Refusal>,
    kind: u32,
    start: u64,
    n: u64,
) -> bool
    requires { start + n ≤ 4294967296 }
    ensures { result ≡ true → CleanRun file.now held kind start n }
{
    let from = stored_run(file, held, kind, start, n);
    if from == 0 {
        return false;
    }
    run_right(file, from, n)
}

// 11 or 14, or 12 where the bits are no score's.
pub(crate) fn fault_of(x: Result<Cell, Refusal>) -> Result<(), Refusal>
    ensures { result ≡ back.fault x }
{
    match answer::cell_verdict(x) {
        Err(r) => Err(r),
        Ok(()) => {
            if score_sheets::score_right(answer::cell_bits(x)) {
                return Ok(());
            }
            Err(Refusal::Input)
        }
    }
}

// What a cell weighs behind which so much is left.
pub(crate) fn weight_of(x: Result<Cell, Refusal>, left: u64) -> u64
    ensures { result ≡ pick (is_fault (back.fault x)) left 0 }
{
    match fault_of(x) {
        Ok(()) => 0,
        Err(_) => left,
    }
}
