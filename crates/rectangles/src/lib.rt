// The cells of a rectangle in one call: one check, then each tile that the rectangle meets once.
#![tactic(auto)]

mod pieces;

ghost use Rattle.std.specs.Prelude.{◌≡◌, length};
ghost use Rattle.wire.specs.Bytes.{put};
ghost use Rattle.answer.specs.Answers.{cell_kind, cell_bits};
ghost use Rattle.store.specs.Face.{Accepts};
ghost use Rattle.rectangles.specs.Rectangles.{cells_given, given_in, written, given_number, given_count};

use answer::Refusal;
use store::many;
use store::many::Rectangle;

// Those of a rectangle in the grid of an accepted file.
fn cells_inside(
    file: &[u8],
    compressor: u32,
    a: Rectangle,
    memory: &mut [u32],
    kinds: &mut [u32],
    bits: &mut [u32],
) -> Result<u64, Refusal>
    requires { Accepts file.now a }
    ensures is { result ≡ given_in a.rows a.columns (length kinds.old) (length bits.old) }
    ensures kinds { kinds.new ≡ put kinds.old 0 (written cell_kind file.now compressor a.e a.row a.column a.rows a.columns result) }
    ensures bits { bits.new ≡ put bits.old 0 (written cell_bits file.now compressor a.e a.row a.column a.rows a.columns result) }
{
    let n = a.rows * a.columns;
    if (kinds.len() as u64) < n {
        return Err(Refusal::Room);
    }
    if (bits.len() as u64) < n {
        return Err(Refusal::Room);
    }
    pieces::fill_all(file, compressor, memory, a, kinds, bits);
    Ok(n)
}

// The kind and the bits of each cell of a rectangle, by rows, in front of `kinds` and `bits`; where it is refused nothing is written. The answer is their number.
// `memory` may have any length, and what it holds afterwards is free: where it has as many numbers as a tile has cells, a packed tile
// is unpacked once.
pub fn cells_in(
    file: &[u8],
    compressor: u32,
    e: u64,
    row: u64,
    column: u64,
    rows: u64,
    columns: u64,
    memory: &mut [u32],
    kinds: &mut [u32],
    bits: &mut [u32],
) -> Result<u64, Refusal>
    ensures is { result ≡ cells_given file.now e row column rows columns (length kinds.old) (length bits.old) }
    ensures kinds { kinds.new ≡ put kinds.old 0 (written cell_kind file.now compressor e row column rows columns result) }
    ensures bits { bits.new ≡ put bits.old 0 (written cell_bits file.now compressor e row column rows columns result) }
{
    store::check(file)?;
    if !many::rectangle_inside(file, e, row, column, rows, columns) {
        return Err(Refusal::OutsideGrid);
    }
    let a = Rectangle {
        e,
        row,
        column,
        rows,
        columns,
    };
    cells_inside(file, compressor, a, memory, kinds, bits)
}

// 0, or the refusal's number.
pub fn given_number(x: Result<u64, Refusal>) -> u32
    ensures { result ≡ given_number x }
{
    match x {
        Ok(_) => 0,
        Err(r) => answer::refusal_number(r),
    }
}

// The number of cells, or the refusal's place.
pub fn given_count(x: Result<u64, Refusal>) -> u64
    ensures { result ≡ given_count x }
{
    match x {
        Ok(n) => n,
        Err(r) => answer::refusal_place(r) as u64,
    }
}
