// All cells of an element in a tile, row by row, as bits: stored ones copied, compressed ones unpacked.
ghost use Rattle.std.specs.Prelude.{◌≡◌, true, false, ◌*◌, ◌<◌, length};
ghost use Rattle.wire.specs.Bytes.{put};
ghost use Rattle.header.specs.Fields.{tile_rows, tile_columns};
ghost use Rattle.header.specs.Element.{element};
ghost use Rattle.unpack.specs.Unpack.{cells_in, is_whole};
ghost use Rattle.cells.specs.TileCells.{stored_bits, unpacked_in, held_room, unpacked_bits, MemorySaid};
ghost use Rattle.cells.specs.inner.Lookups.{sides_lawful, room_reached};

use crate::tile_cells;
use answer::{Held, Refusal};
use geometry::sizes;
use header::{entries, fields};

// How many cells a tile has.
fn tile_cells_of(s: &[u8]) -> usize
    ensures { result ≡ tile_rows s.now * tile_columns s.now }
{
    fields::tile_rows(s) as usize * fields::tile_columns(s) as usize
}

// The bits of all cells of element e, stored from a position on, where they fit.
pub(crate) fn put_stored(s: &[u8], e: usize, at: usize, out: &mut [u32])
    requires { sides_lawful s.now ≡ true }
    ensures { out.new ≡ put out.old 0 (stored_bits s.now (element s.now e).kind at (tile_rows s.now * tile_columns s.now)) }
{
    let kind = entries::element(s, e).kind;
    let n = tile_cells_of(s);
    if out.len() < n {
        return;
    }
    for i in 0..n {
        out[i] = tile_cells::bits_at(s, kind, at, sizes::cell_offset(kind, i as u32) as usize);
    }
}

// The bits of all cells that the compressed content of element e holds, where they fit, and whether it is not malformed. Where it is, `out`
// is kept if that is asked for; else it is written while the content is judged.
fn put_unpacked(s: &[u8], x: usize, e: u32, keep: bool, out: &mut [u32]) -> bool
    requires { x < length s.now }
    ensures whole { result ≡ is_whole (unpacked_in s.now x e) }
    ensures holds { (keep ≡ false → result ≡ true) → out.new ≡ put out.old 0 (cells_in (unpacked_in s.now x e)) }
{
    let content = tile_cells::content_of(s, x, e);
    let rows = fields::tile_rows(s);
    let columns = fields::tile_columns(s);
    let short = tile_cells::kind_of(s, e) == entries::SHORT;
    if keep {
        return unpack::unpack_all(content, rows, columns, short, out);
    }
    unpack::unpack_lent(content, rows, columns, short, out)
}

// By the tile record at x, with memory for so many unpacked cells, kept or not where the content is malformed.
fn hold_in(
    s: &[u8],
    compressor: u32,
    x: usize,
    e: u32,
    room: usize,
    keep: bool,
    memory: &mut [u32],
) -> Result<Held, Refusal>
    requires { x < length s.now }
    ensures is { result ≡ held_room s.now compressor x e room }
    ensures holds { MemorySaid keep result → memory.new ≡ put memory.old 0 (unpacked_bits s.now e result) }
{
    let at = tile_cells::section(s, x, e) + 4;
    if tile_cells::is_packed(s, x, e) {
        if tile_cells::is_unpackable(s, compressor, x, e) {
            if room < tile_cells_of(s) {
                return Ok(Held::Alone);
            }
            if put_unpacked(s, x, e, keep, memory) {
                return Ok(Held::Unpacked(at));
            }
            return Err(Refusal::Malformed(x));
        }
        return Err(Refusal::Compressed(x));
    }
    Ok(Held::Stored(at))
}

// By the record that was found for the tile: 9 where that starts past the file.
pub(crate) fn hold_reached(
    s: &[u8],
    compressor: u32,
    found: Option<usize>,
    e: u32,
    room: usize,
    keep: bool,
    memory: &mut [u32],
) -> Result<Held, Refusal>
    ensures is { result ≡ room_reached s.now compressor e room found }
    ensures holds { MemorySaid keep result → memory.new ≡ put memory.old 0 (unpacked_bits s.now e result) }
{
    match found {
        None => Ok(Held::Absent),
        Some(x) => {
            if x < s.len() {
                return hold_in(s, compressor, x, e, room, keep, memory);
            }
            Err(Refusal::Directory)
        }
    }
}
