// Reads: the check's refusal, then 10, then fill, stored, unpacked, 11 or 14.
ghost use Rattle.std.specs.Prelude.{◌≡◌, ◌+◌, Ok};
ghost use Rattle.wire.specs.Bytes.{part, part_at, put};
ghost use Rattle.cells.specs.TileCells.{held_bits};
ghost use Rattle.answer.specs.Answers.{content_place, content_length};
ghost use Rattle.page_check.specs.Stages.{check};
ghost use Rattle.bodies.specs.TileDirectory.{tile_directory_at};
ghost use Rattle.tile_routes.specs.Ways.{referred_to};
ghost use Rattle.cells.specs.Meaning.{meaning};
ghost use Rattle.cells.specs.inner.Lookups.{looked_up};
ghost use Rattle.cells.specs.Reads.{read_by_directory, read_by_walk, read_by_records, read_meaning, records_meaning, read_content, read_held};

use crate::lookups;
use answer::{Cell, Extent, Held, Refusal};
use bodies::tile_directory;
use record::chain;
use tile_routes::Route;

// The cell by the file's own directory, of a file that the check has accepted; no read, since it makes no check.
pub fn cell_of_accepted(
    s: &[u8],
    compressor: u32,
    row: u64,
    column: u64,
    e: u64,
) -> Result<Cell, Refusal>
    ensures looked { result ≡ looked_up s.now compressor (referred_to s.now (tile_directory_at s.now)) row column e }
    ensures accepted { check s.now ≡ Ok tt → result ≡ meaning s.now compressor row column e }
{
    let route = Route::Directory(tile_directory::tile_directory_at(s));
    lookups::look_up(s, compressor, route, row, column, e)
}

// The read through the tile directory.
pub fn read_by_directory(
    s: &[u8],
    compressor: u32,
    row: u64,
    column: u64,
    e: u64,
) -> Result<Cell, Refusal>
    ensures route { result ≡ read_by_directory s.now compressor row column e }
    ensures meaning { result ≡ read_meaning s.now compressor row column e }
{
    page_check::check(s)?;
    cell_of_accepted(s, compressor, row, column, e)
}

// The read by the walk.
pub fn read_by_walk(
    s: &[u8],
    compressor: u32,
    row: u64,
    column: u64,
    e: u64,
) -> Result<Cell, Refusal>
    ensures route { result ≡ read_by_walk s.now compressor row column e }
    ensures meaning { result ≡ read_meaning s.now compressor row column e }
{
    page_check::check(s)?;
    lookups::look_up(
        s,
        compressor,
        Route::Walk(chain::header_end(s)),
        row,
        column,
        e,
    )
}

// The read by the walk without stage 9: from the records alone, whatever the directories hold.
pub fn read_by_records(
    s: &[u8],
    compressor: u32,
    row: u64,
    column: u64,
    e: u64,
) -> Result<Cell, Refusal>
    ensures route { result ≡ read_by_records s.now compressor row column e }
    ensures meaning { result ≡ records_meaning s.now compressor row column e }
{
    page_check::check_to_bodies(s)?;
    lookups::look_up(
        s,
        compressor,
        Route::Walk(chain::header_end(s)),
        row,
        column,
        e,
    )
}

// The uncompressed content of an element in a tile: where it stands in the file.
pub fn content(s: &[u8], tile: u64, e: u64) -> Result<Option<Extent>, Refusal>
    ensures { result ≡ read_content s.now tile e }
{
    page_check::check(s)?;
    let route = Route::Directory(tile_directory::tile_directory_at(s));
    lookups::look_up_content(s, route, tile, e)
}

// The same as that part of the file itself; the empty part where it is refused or absent.
pub fn content_part(s: &[u8], tile: u64, e: u64) -> &[u8]
    ensures holds { result.now ≡ part s.now (content_place (read_content s.now tile e)) (content_length (read_content s.now tile e)) }
    ensures block { result.ref_ptr.0 ≡ s.entry.ref_ptr.0 }
    ensures offset { result.ref_ptr.1 ≡ s.entry.ref_ptr.1 + part_at s.now (content_place (read_content s.now tile e)) (content_length (read_content s.now tile e)) }
{
    let x = content(s, tile, e);
    wire::part_of(s, answer::content_place(x), answer::content_length(x))
}

// All cells of an element in a tile: what is said of them, and their bits, row by row, in `out` where they fit; what stands behind them
// stays. Refused, or where they do not fit, `out` is as it was.
pub fn hold(s: &[u8], compressor: u32, tile: u64, e: u64, out: &mut [u32]) -> Result<Held, Refusal>
    ensures is { result ≡ read_held s.now compressor tile e }
    ensures holds { out.new ≡ put out.old 0 (held_bits s.now e result) }
{
    page_check::check(s)?;
    let route = Route::Directory(tile_directory::tile_directory_at(s));
    lookups::look_up_held(s, compressor, route, tile, e, out)
}
