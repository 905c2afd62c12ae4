// For products that make one check and then many reads: nothing is checked here, so none of these is a read. Each promises its own
// definition on any bytes; where the check accepts them, what is held gives the meaning of each cell of the tile.
ghost use Rattle.std.specs.Prelude.{◌≡◌, false, ◌+◌, ◌<◌, length, leb, Ok};
ghost use Rattle.wire.specs.Bytes.{put};
ghost use Rattle.header.specs.Fields.{element_count};
ghost use Rattle.geometry.specs.Tiles.{tile_count};
ghost use Rattle.page_check.specs.Stages.{check};
ghost use Rattle.cells.specs.TileCells.{unpacked_bits, MemorySaid};
ghost use Rattle.cells.specs.Many.{held_by_directory, held_cell, numbered_cell, Holds};
ghost use Rattle.store.specs.Many.{rectangle_inside};

use answer::{Cell, Held, Refusal};
use bodies::tile_directory;
use cells::lookups;
use header::fields;
use tile_routes::Route;

// An element, and a rectangle's first row and column and its sides.
#[derive(Clone, Copy)]
pub struct Rectangle {
    pub e: u64,
    pub row: u64,
    pub column: u64,
    pub rows: u64,
    pub columns: u64,
}

// What is held of an element in a tile, by the file's own directory. The memory takes the cells of a compressed content, row by row,
// where it has room for all of them, and what stands behind them stays; of any other it is as it was.
pub fn hold_accepted(
    file: &[u8],
    compressor: u32,
    tile: u64,
    e: u64,
    memory: &mut [u32],
) -> Result<Held, Refusal>
    ensures is { result ≡ held_by_directory file.now compressor tile e (length memory.old) }
    ensures memory { memory.new ≡ put memory.old 0 (unpacked_bits file.now e result) }
    ensures holds { check file.now ≡ Ok tt → tile < tile_count file.now → e < element_count file.now → Holds file.now compressor tile e result memory.new }
{
    let route = Route::Directory(tile_directory::tile_directory_at(file));
    let room = memory.len();
    lookups::look_up_room(file, compressor, route, tile, e, room, memory)
}

// The same in one pass over a content, with memory that is lent: where a content is malformed, what the memory then holds is free.
pub fn hold_lent(
    file: &[u8],
    compressor: u32,
    tile: u64,
    e: u64,
    memory: &mut [u32],
) -> Result<Held, Refusal>
    ensures is { result ≡ held_by_directory file.now compressor tile e (length memory.old) }
    ensures memory { MemorySaid false result → memory.new ≡ put memory.old 0 (unpacked_bits file.now e result) }
    ensures holds { check file.now ≡ Ok tt → tile < tile_count file.now → e < element_count file.now → Holds file.now compressor tile e result memory.new }
{
    let route = Route::Directory(tile_directory::tile_directory_at(file));
    lookups::look_up_lent(file, compressor, route, tile, e, memory)
}

// A cell, told from what is held and from the memory: in a few steps, unless it is looked up by itself.
pub fn held_cell(
    file: &[u8],
    compressor: u32,
    held: Result<Held, Refusal>,
    memory: &[u32],
    row: u64,
    column: u64,
    e: u64,
) -> Result<Cell, Refusal>
    ensures { result ≡ held_cell file.now compressor held memory.now row column e }
{
    cells::many::cell_held(file, compressor, held, memory, row, column, e)
}

// The cell with a number inside its tile, of an element of a type code and a fill, told from what is held and from the memory: in a step
// or two, without a look at the grid. 9 where each is looked up by itself.
pub fn numbered_cell(
    file: &[u8],
    kind: u32,
    fill: u32,
    held: Result<Held, Refusal>,
    memory: &[u32],
    tile: u64,
    inside: u32,
) -> Result<Cell, Refusal>
    ensures { result ≡ numbered_cell file.now kind fill memory.now tile inside held }
{
    cells::many::numbered_cell(file, kind, fill, held, memory, tile, inside)
}

// Whether n rows or columns from one on lie within a side of the grid, however large the sum.
fn within(at: u64, n: u64, side: u64) -> bool
    ensures { result ≡ leb (at + n) side }
{
    if side < at {
        return false;
    }
    if side - at < n {
        return false;
    }
    true
}

// Whether the page has the element, and the rectangle lies in the grid.
pub fn rectangle_inside(file: &[u8], e: u64, row: u64, column: u64, rows: u64, columns: u64) -> bool
    ensures { result ≡ rectangle_inside file.now e row column rows columns }
{
    if fields::element_count(file) as u64 <= e {
        return false;
    }
    if within(row, rows, fields::grid_rows(file) as u64) {
        return within(column, columns, fields::grid_columns(file) as u64);
    }
    false
}
