// The stored tiles, ascending by index.
ghost use Rattle.std.specs.Prelude.{◌≡◌, ◌≤◌, ◌<◌, length, Ok};
ghost use Rattle.wire.specs.Bytes.{byte_at, put};
ghost use Rattle.bodies.specs.TileRecord.{section_length, element_content_at};
ghost use Rattle.page_check.specs.Stages.{check};
ghost use Rattle.cells.specs.TileCells.{packed};
ghost use Rattle.says.specs.Lists.{items_of, item_numbers, listed, listed_numbers, offered_if, offered_if_to};
ghost use Rattle.says.specs.Tiles.{stored, stored_tiles, bit_if, packed_mask, packed_coded, compressor_of, tile_says};

use crate::lists;
use crate::lists::{Listed, Progress};
use bodies::{tile_directory, tile_record};
use geometry::sizes;
use header::entries;
use record::frame;
use store::description;

// The length L of element e in the tile record at x, and the first byte of its content; 0 where they do not lie in the file.
fn section_length(s: &[u8], x: usize, e: u32) -> u32
    ensures { result ≡ section_length s.now x e }
{
    if s.len() <= x {
        return 0;
    }
    wire::u32_at(s, tile_record::section_start(s, x, e))
}

fn content_byte(s: &[u8], x: usize, e: u32) -> u32
    ensures is { result ≡ byte_at s.now (element_content_at s.now x e) }
    ensures small { result < 256 }
{
    if s.len() <= x {
        return 0;
    }
    wire::byte_off(s, tile_record::section_start(s, x, e), 4)
}

// Whether element e is packed there.
fn section_packed(s: &[u8], x: usize, e: u32) -> bool
    ensures { result ≡ packed s.now x e }
{
    let l = section_length(s, x, e) as u64;
    if l < sizes::element_bytes(s, e as usize) {
        return true;
    }
    false
}

// Whether it is packed and no Float.
fn is_coded(s: &[u8], x: usize, e: u32) -> bool
    ensures { result ≡ packed_coded s.now x e }
{
    if description::kind_of(s, e as u64) == entries::FLOAT {
        return false;
    }
    section_packed(s, x, e)
}

// A bit where it is to be set, else 0.
fn bit_where(b: bool, bit: u64) -> u64
    ensures is { result ≡ bit_if b bit }
    ensures small { result ≤ bit }
{
    if b {
        return bit;
    }
    0
}

// The mask of the packed elements.
fn packed_mask(s: &[u8], x: usize) -> u64
    ensures { result ≡ packed_mask s.now x }
{
    let n = entries::entries_read(s);
    let mut mask: u64 = 0;
    let mut bit: u64 = 1;
    let mut e = 0;
    while e < n {
        mask += bit_where(section_packed(s, x, e as u32), bit);
        bit *= 2;
        e += 1;
    }
    mask
}

// The compressor index of the first packed element that is no Float; 256 where there is none.
fn compressor_of(s: &[u8], x: usize) -> u32
    ensures { result ≡ compressor_of s.now x }
{
    let n = entries::entries_read(s);
    let mut e = 0;
    while e < n {
        if is_coded(s, x, e as u32) {
            return content_byte(s, x, e as u32);
        }
        e += 1;
    }
    256
}

// The four numbers of tile i.
fn tile_item(s: &[u8], i: u32) -> [u64; 4]
    ensures { result ≡ tile_says s.now i }
{
    let x = frame::record_of(tile_directory::tile_reference(s, i));
    let mask = packed_mask(s, x);
    let index = compressor_of(s, x) as u64;
    [i as u64, x as u64, mask, index]
}

// Tile i is given to a list where it is stored.
fn offer_tile(s: &[u8], i: u32, p: Progress, numbers: &mut [u64]) -> Progress
    requires { (p.at ≤ length numbers.old) × ((p.taken ≤ p.seen) × (p.seen < 9223372036854775808)) }
    ensures is { result ≡ offered_if (stored s.now i) 4 (length numbers.old) p }
    ensures numbers { numbers.new ≡ offered_if_to (stored s.now i) numbers.old (tile_says s.now i) p }
{
    if tile_directory::tile_reference(s, i) == 0 {
        return p;
    }
    let item = tile_item(s, i);
    lists::offer(p, numbers, &item)
}

// Those of an accepted file.
fn list_tiles(s: &[u8], from: u64, numbers: &mut [u64]) -> Listed
    requires { check s.now ≡ Ok tt }
    ensures is { result ≡ items_of 4 from (stored_tiles s.now) (length numbers.old) }
    ensures numbers { numbers.new ≡ put numbers.old 0 (item_numbers (tile_says s.now) 4 from (stored_tiles s.now) (length numbers.old)) }
{
    let n = geometry::tiles::tile_count(s) as u32;
    let mut p = Progress {
        skip: from,
        at: 0,
        taken: 0,
        seen: 0,
    };
    let mut i = 0;
    while i < n {
        p = offer_tile(s, i, p, numbers);
        i += 1;
    }
    Listed::Items {
        taken: p.taken,
        more: p.seen,
    }
}

// The stored tiles of a page, from one on: four numbers each. Its time is one check, and a look at each tile's reference and at the elements
// of each that is stored.
pub fn tiles(file: &[u8], from: u64, numbers: &mut [u64]) -> Listed
    ensures is { result ≡ listed file.now 4 from (stored_tiles file.now) (length numbers.old) }
    ensures numbers { numbers.new ≡ put numbers.old 0 (listed_numbers file.now (tile_says file.now) 4 from (stored_tiles file.now) (length numbers.old)) }
{
    match store::check(file) {
        Err(r) => Listed::Refused(r),
        Ok(()) => list_tiles(file, from, numbers),
    }
}
