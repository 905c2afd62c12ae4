// Stage 8: the body of a tile record.
ghost use Rattle.std.specs.Prelude.{◌≡◌, ◌+◌, ◌<◌, length};
ghost use Rattle.wire.specs.Tests.{all_below};
ghost use Rattle.check_records.specs.Frame.{end_right};
ghost use Rattle.check_records.specs.TileBody.{section_right, index_right, tile_right};
ghost use Rattle.header.specs.Element.{entry_start};
ghost use Rattle.bodies.specs.TileRecord.{section_at, tile_end};

use crate::ends;
use bodies::tile_record;
use geometry::{Packing, sizes, tiles};
use header::{entries, fields};

// Whether the length of element e there is from 1 to U: its section starts at p, and its entry in the header at q.
fn section_right(s: &[u8], at: usize, e: u32, p: usize, q: usize) -> bool
    requires { (p ≡ section_at s.now at e) × (q ≡ entry_start s.now e) }
    ensures { result ≡ section_right s.now at e }
{
    let kind = wire::byte_at(s, q);
    let l = wire::u32_at(s, p);
    match sizes::kind_packing(s, kind, l) {
        Packing::Uncompressed => true,
        Packing::Compressed => true,
        Packing::Fault => false,
    }
}

// The first n of them, in one pass over the sections and the entries.
fn sections_right(s: &[u8], at: usize, n: u32) -> bool
    requires { at < length s.now }
    ensures { result ≡ all_below n (section_right s.now at) }
{
    let mut p = tile_record::section_start(s, at, 0);
    let mut q = entries::entry_start(s, 0);
    for e in 0..n {
        if !section_right(s, at, e, p, q) {
            return false;
        }
        p = tile_record::next_section(s, at, p);
        q = entries::next_entry(s, q);
    }
    true
}

// Whether a tile index is at least 0 and below the tile count.
fn index_right(s: &[u8], at: usize) -> bool
    ensures { result ≡ index_right s.now at }
{
    let i = wire::u32_off(s, at, 8);
    if wire::LARGEST_INTEGER < i {
        return false;
    }
    if tiles::tile_count(s) <= (i as u64) {
        return false;
    }
    true
}

// Whether the sections end before the checksum, with the least record length.
fn sections_end_right(s: &[u8], at: usize) -> bool
    requires { at < length s.now }
    ensures { result ≡ end_right s.now at (tile_end s.now at) }
{
    ends::end_right(
        s,
        at,
        tile_record::section_start(s, at, fields::element_count(s)),
    )
}

pub fn tile_right(s: &[u8], at: usize) -> bool
    ensures { result ≡ tile_right s.now at }
{
    if s.len() <= at {
        return false;
    }
    if index_right(s, at) {
        if sections_end_right(s, at) {
            return sections_right(s, at, fields::element_count(s));
        }
    }
    false
}
