// Laying down a page (document 01): the front, one tile record for each index, the tile directory last.
//
// The pieces of a record and of a directory are those of `written_records`, total as the fields of a front here; what does not fit
// whole is not written. The writers here are private and have a `requires`: the input was judged, and what is written fits. Asking
// again in each of them would decide nothing.
//
// The elements' sizes are worked out once, into 16 numbers, and serve every tile record, since an element's entry is found by passing
// over those before it. A front that passes stage 4 has at most 16, so a lay-down needs no memory that grows with the page.
#![tactic(auto)]

pub mod front;
mod page;
pub mod sheet;

ghost use Rattle.std.specs.Prelude.{◌≡◌, true, ◌+◌, ◌*◌, ◌≤◌, length, Ok};
ghost use Rattle.wire.specs.Tests.{sum_below};
ghost use Rattle.wire.specs.Bytes.{put};
ghost use Rattle.header.specs.Fields.{element_count};
ghost use Rattle.header.specs.Element.{most_elements};
ghost use Rattle.record.specs.Chain.{joined};
ghost use Rattle.geometry.specs.Tiles.{tile_count};
ghost use Rattle.geometry.specs.Sizes.{stored_size, element_bytes, plain_tile_length};
ghost use Rattle.check_header.specs.Stages.{check_front};
ghost use Rattle.check_header.specs.Ceilings.{most_tiles};
ghost use Rattle.written_records.specs.Pieces.{record_length};
ghost use Rattle.written_records.specs.Tile.{sections, tile_record};
ghost use Rattle.lay_down.specs.Page.{tile_records, references, directory_record, laid_front, laid_file};
ghost use Rattle.lay_down.specs.Answer.{ascending, input_right, input_verdict, lay_down_verdict, laid, laid_out};
ghost use Rattle.lay_down.specs.Ready.{SizesOf, TileReady, TilesReady, IndexesReady};

use answer::Refusal;
use check_header::stages;
use geometry::{sizes, tiles};
use header::{entries, fields};
use tile_sizes;
use wire::writing;
use written_records::pieces;

// The type of a tile record, as the byte that it is.
const TILE: u8 = record::TILE as u8;

// Whether the indexes are strictly ascending, each below n.
fn is_ascending(indexes: &[u32], n: u64) -> bool
    ensures { result ≡ ascending n 0 indexes.now }
{
    let mut least: u64 = 0;
    for index in indexes {
        let x = *index as u64;
        if x < least {
            return false;
        }
        if n <= x {
            return false;
        }
        least = x + 1;
    }
    true
}

// Refusal 12's rules.
fn input_right(front: &[u8], time: u64, indexes: &[u32], cells: &[u8]) -> bool
    requires { check_front front.now ≡ Ok tt }
    ensures { result ≡ input_right front.now time indexes.now cells.now }
{
    if time == 0 {
        return false;
    }
    let count = tiles::tile_count(front);
    if is_ascending(indexes, count) {
        let tile = sizes::tile_bytes(front);
        if cells.len() as u64 != indexes.len() as u64 * tile {
            return false;
        }
        return true;
    }
    false
}

// The uncompressed bytes of each element of a tile.
fn element_sizes(front: &[u8], sizes: &mut [u32])
    requires { (check_front front.now ≡ Ok tt) × (length sizes.old ≡ most_elements) }
    ensures { SizesOf front.now sizes.new }
{
    tile_sizes::element_sizes(front, sizes);
}

// What is judged behind the front: 12, then 4, then 13.
fn input_verdict(
    front: &[u8],
    time: u64,
    indexes: &[u32],
    cells: &[u8],
    room: usize,
) -> Result<(), Refusal>
    requires { check_front front.now ≡ Ok tt }
    ensures { result ≡ input_verdict front.now time indexes.now cells.now room }
{
    if input_right(front, time, indexes, cells) {
        return page::length_verdict(front, indexes, room);
    }
    Err(Refusal::Input)
}

// Whether a lay-down is refused, into a buffer of so many bytes.
fn lay_down_verdict(
    front: &[u8],
    time: u64,
    indexes: &[u32],
    cells: &[u8],
    room: usize,
) -> Result<(), Refusal>
    ensures { result ≡ lay_down_verdict front.now time indexes.now cells.now room }
{
    match stages::check_front(front) {
        Err(r) => Err(r),
        Ok(()) => input_verdict(front, time, indexes, cells, room),
    }
}

// The sections of a tile's elements, and where they end.
fn put_sections(out: &mut [u8], at: usize, front: &[u8], sizes: &[u32], cells: &[u8]) -> usize
    requires { TileReady front.now sizes.now cells.now (at + sum_below (element_count front.now) (λ e. stored_size (element_bytes front.now e))) (length out.old) }
    ensures end { result ≡ at + sum_below (element_count front.now) (λ e. stored_size (element_bytes front.now e)) }
    ensures holds { out.new ≡ put out.old at (sections front.now (element_count front.now) cells.now) }
{
    let n = entries::entries_read(front);
    let mut p = at;
    let mut from = 0;
    for e in 0..n {
        let u = sizes[e];
        pieces::put_section(out, p, wire::part_of(cells, from, u as usize));
        p += sizes::stored_size(u) as usize;
        from += u as usize;
    }
    p
}

// The tile record of an index, n bytes long.
fn put_tile(
    out: &mut [u8],
    at: usize,
    n: usize,
    front: &[u8],
    sizes: &[u32],
    index: u32,
    cells: &[u8],
)
    requires { TileReady front.now sizes.now cells.now (at + n) (length out.old) × (n ≡ plain_tile_length front.now) }
    ensures { out.new ≡ put out.old at (tile_record front.now index cells.now) }
{
    let flag = fields::checksum_enabled(front);
    pieces::put_head(out, at, n as u32, TILE);
    writing::put_u32(out, at + 8, index);
    let end = put_sections(out, at + 12, front, sizes, cells);
    pieces::close(out, at, end, n, flag);
}

// A tile record for each index, n bytes each, behind the front.
fn put_tiles(out: &mut [u8], n: usize, front: &[u8], sizes: &[u32], indexes: &[u32], cells: &[u8])
    requires { TilesReady front.now indexes.now cells.now (length out.old) × ((n ≡ plain_tile_length front.now) × SizesOf front.now sizes.now) }
    ensures { out.new ≡ put out.old (length front.now) (joined (tile_records front.now indexes.now cells.now)) }
{
    let tile = sizes::tile_bytes(front) as usize;
    let mut at = front.len();
    let mut from = 0;
    for index in indexes {
        put_tile(
            out,
            at,
            n,
            front,
            sizes,
            *index,
            wire::part_of(cells, from, tile),
        );
        at += n;
        from += tile;
    }
}

// The whole file.
fn put_page(front: &[u8], time: u64, indexes: &[u32], cells: &[u8], file: &mut [u8])
    requires { lay_down_verdict front.now time indexes.now cells.now (length file.old) ≡ Ok tt }
    ensures { file.new ≡ put file.old 0 (laid_file front.now time indexes.now cells.now) }
{
    let mut sizes = [0u32; entries::MOST_ELEMENTS as usize];
    element_sizes(front, &mut sizes);
    let n = page::tile_length(front);
    let at = page::directory_start(front, indexes.len());
    page::put_front(file, front, time, at as u64 + 8);
    put_tiles(file, n, front, &sizes, indexes, cells);
    page::put_directory(file, at, n, front, indexes);
}

// Lays a page down: a front, the time modified, tile indexes, and the cell bytes of those tiles one after another, all elements in
// order, no lengths, no padding.
pub fn lay_down(
    front: &[u8],
    time: u64,
    indexes: &[u32],
    cells: &[u8],
    file: &mut [u8],
) -> Result<usize, Refusal>
    ensures answer { result ≡ laid front.now time indexes.now cells.now (length file.old) }
    ensures buffer { file.new ≡ laid_out front.now time indexes.now cells.now file.old }
{
    let room = file.len();
    match lay_down_verdict(front, time, indexes, cells, room) {
        Err(r) => Err(r),
        Ok(()) => {
            put_page(front, time, indexes, cells, file);
            Ok(page::file_length(front, indexes.len()))
        }
    }
}
