// For callers that have made the check: the same as a read, without it. They answer 10 first, then 9 where unchecked bytes lead
// nowhere; on an accepted file, from the positions that its bytes give, it is the cell's meaning.
ghost use Rattle.std.specs.Prelude.{◌≡◌, false, length};
ghost use Rattle.cells.specs.inner.Lookups.{sides_lawful, looked_up, looked_up_content, looked_up_held, looked_up_room};
ghost use Rattle.wire.specs.Bytes.{put};
ghost use Rattle.cells.specs.TileCells.{held_bits, unpacked_bits, MemorySaid};
ghost use Rattle.tile_routes.specs.Ways.{found_by};

use crate::{asked, held, tile_cells};
use answer::{Cell, Extent, Held, Refusal};
use check_header::{ceilings, header_record};
use geometry::tiles;
use tile_routes::{Route, routes};

// The most cells that a tile with lawful sides has.
const MOST_CELLS: usize = 16777216;

// The sides keep stages 3 and 4.
pub(crate) fn sides_lawful(s: &[u8]) -> bool
    ensures { result ≡ sides_lawful s.now }
{
    if header_record::sides_right(s) {
        return ceilings::sides_within(s);
    }
    false
}

// A cell by a route.
pub fn look_up(
    s: &[u8],
    compressor: u32,
    route: Route,
    row: u64,
    column: u64,
    e: u64,
) -> Result<Cell, Refusal>
    ensures { result ≡ looked_up s.now compressor (found_by s.now route) row column e }
{
    if asked::in_grid(s, row, column, e) {
        if sides_lawful(s) {
            let tile = tiles::cell_tile(s, row as u32, column as u32) as u32;
            let found = routes::found_by(s, route, tile);
            return tile_cells::cell_reached(
                s,
                compressor,
                found,
                row as u32,
                column as u32,
                e as u32,
            );
        }
        return Err(Refusal::Directory);
    }
    Err(Refusal::OutsideGrid)
}

// An element's content in a tile, by a route.
pub fn look_up_content(s: &[u8], route: Route, tile: u64, e: u64) -> Result<Option<Extent>, Refusal>
    ensures { result ≡ looked_up_content s.now (found_by s.now route) tile e }
{
    if asked::in_tiles(s, tile, e) {
        if sides_lawful(s) {
            let found = routes::found_by(s, route, tile as u32);
            return tile_cells::content_reached(s, found, e as u32);
        }
        return Err(Refusal::Directory);
    }
    Err(Refusal::OutsideGrid)
}

// What is said of all cells of an element in a tile, by a route; with memory that is kept or not where a content is malformed.
fn look_up_keeping(
    s: &[u8],
    compressor: u32,
    route: Route,
    tile: u64,
    e: u64,
    room: usize,
    keep: bool,
    memory: &mut [u32],
) -> Result<Held, Refusal>
    ensures is { result ≡ looked_up_room s.now compressor (found_by s.now route) tile e room }
    ensures holds { MemorySaid keep result → memory.new ≡ put memory.old 0 (unpacked_bits s.now e result) }
{
    if asked::in_tiles(s, tile, e) {
        if sides_lawful(s) {
            let found = routes::found_by(s, route, tile as u32);
            return held::hold_reached(s, compressor, found, e as u32, room, keep, memory);
        }
        return Err(Refusal::Directory);
    }
    Err(Refusal::OutsideGrid)
}

// The same, for who goes on from cell to cell: stored ones stay where they are, compressed ones are unpacked into the memory, where they
// are at most `room`.
pub fn look_up_room(
    s: &[u8],
    compressor: u32,
    route: Route,
    tile: u64,
    e: u64,
    room: usize,
    memory: &mut [u32],
) -> Result<Held, Refusal>
    ensures is { result ≡ looked_up_room s.now compressor (found_by s.now route) tile e room }
    ensures holds { memory.new ≡ put memory.old 0 (unpacked_bits s.now e result) }
{
    look_up_keeping(s, compressor, route, tile, e, room, true, memory)
}

// The same in one pass over a content, with memory that is free where the content is malformed.
pub fn look_up_lent(
    s: &[u8],
    compressor: u32,
    route: Route,
    tile: u64,
    e: u64,
    memory: &mut [u32],
) -> Result<Held, Refusal>
    ensures is { result ≡ looked_up_room s.now compressor (found_by s.now route) tile e (length memory.old) }
    ensures holds { MemorySaid false result → memory.new ≡ put memory.old 0 (unpacked_bits s.now e result) }
{
    let room = memory.len();
    look_up_keeping(s, compressor, route, tile, e, room, false, memory)
}

// The same with all their bits: stored ones are copied, and compressed ones are judged also where they do not fit.
pub fn look_up_held(
    s: &[u8],
    compressor: u32,
    route: Route,
    tile: u64,
    e: u64,
    out: &mut [u32],
) -> Result<Held, Refusal>
    ensures is { result ≡ looked_up_held s.now compressor (found_by s.now route) tile e }
    ensures holds { out.new ≡ put out.old 0 (held_bits s.now e result) }
{
    let held = look_up_room(s, compressor, route, tile, e, MOST_CELLS, out)?;
    if let Held::Stored(at) = held {
        held::put_stored(s, e as usize, at, out);
    }
    Ok(held)
}
