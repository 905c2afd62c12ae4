// Stage 9: every reference of the tile directory that is not zero is of a tile record with its index.
//
// One pass over the records marks the indexes whose reference is right. One over the indexes looks for the record of a reference only where
// it is not zero and its index has no mark: then it is wrong, and the pass ends.
#![tactic(auto, using(reasons::proofs::ReasonLaws::chain), unfolding(crate::specs::DirectoryRows::given_rows))]

ghost use Rattle.std.specs.Prelude.{◌≡◌, ◌≤◌, ◌<◌, length};
ghost use Rattle.geometry.specs.Tiles.{tile_count};
ghost use Rattle.bodies.specs.TileDirectory.{tile_directory_at};
ghost use Rattle.reasons.specs.Rows.{first_failing, rows_below};
ghost use Rattle.explain.specs.DirectoryRows.{number_in, given_right, given_rows};
ghost use Rattle.explain.specs.Marks.{Marked, OfChain};

use crate::tile_directory_rows;
use bodies::tile_directory;
use check_directory::references;
use geometry::tiles;
use reasons::{Fault, rows};
use record::{Cursor, Step, chain, frame};
use record_reasons::ends;

// The number of a tile index in the rectangle.
fn number_in(s: &[u8], i: u32) -> u64
    ensures { result ≡ number_in s.now i }
{
    let at = tile_directory::tile_directory_at(s);
    let across = tiles::tiles_across(s);
    let row = tiles::quotient(i, across) as usize;
    let column = tiles::remainder(i, across) as usize;
    let down = ends::surplus(row, tile_directory::first_row(s, at) as usize);
    let right = ends::surplus(column, tile_directory::first_column(s, at) as usize);
    down as u64 * (tile_directory::listed_columns(s, at) as u64) + right as u64
}

// The reference of a tile index is zero or that of a tile record with the index.
fn given_right(s: &[u8], i: u32) -> bool
    ensures { result ≡ given_right s.now i }
{
    let reference = tile_directory::tile_reference(s, i);
    if reference == 0 {
        return true;
    }
    if references::refers_to(s, record::TILE, reference) {
        if wire::u32_off(s, frame::record_of(reference), 8) == i {
            return true;
        }
        return false;
    }
    false
}

fn given_row(s: &[u8], i: u32) -> Result<(), Fault>
    requires { tile_directory_at s.now < length s.now }
    ensures { result ≡ first_failing (given_rows s.now i) }
{
    let place = tile_directory_rows::place_of(s, number_in(s, i));
    let found = tile_directory::tile_reference(s, i);
    let kept = given_right(s, i);
    rows::holds(59, i as u64, place, found, 0, kept)
}

// A mark at the index of the record of a type at a position, where that is a tile record that the index's reference gives.
fn mark_tile(s: &[u8], kind: u32, at: usize, marks: &mut [u8])
    requires chain { OfChain s.now kind at }
    requires marked { Marked s.now marks.old }
    ensures { Marked s.now marks.new }
{
    if kind != record::TILE {
        return;
    }
    let i = wire::u32_off(s, at, 8);
    let j = i as usize;
    if marks.len() <= j {
        return;
    }
    let reference = tile_directory::tile_reference(s, i);
    if reference < 8 {
        return;
    }
    if reference - 8 != (at as u64) {
        return;
    }
    marks[j] = 1;
}

// The marks of all tile records.
fn mark_tiles(s: &[u8], marks: &mut [u8])
    requires { Marked s.now marks.old }
    ensures { Marked s.now marks.new }
{
    let mut c = Cursor {
        at: chain::header_end(s),
    };
    loop {
        let Step::Record {
            kind,
            start,
            length: _,
            next,
        } = c.step(s)
        else {
            return;
        };
        mark_tile(s, kind, start, marks);
        c = next;
    }
}

// The row of a tile index; where there is a mark it is kept.
fn marked_row(s: &[u8], marks: &[u8], i: u32) -> Result<(), Fault>
    requires inside { tile_directory_at s.now < length s.now }
    requires marked { Marked s.now marks.now }
    ensures { result ≡ first_failing (given_rows s.now i) }
{
    let j = i as usize;
    if j < marks.len() {
        if marks[j] == 1 {
            return Ok(());
        }
    }
    given_row(s, i)
}

// Of every tile index.
fn marked_rows(s: &[u8], marks: &[u8]) -> Result<(), Fault>
    requires inside { (tile_directory_at s.now < length s.now) × (tile_count s.now ≤ 65536) }
    requires marked { Marked s.now marks.now }
    ensures { result ≡ first_failing (rows_below (tile_count s.now) (given_rows s.now)) }
{
    for i in 0..tiles::tile_count(s) as u32 {
        marked_row(s, marks, i)?;
    }
    Ok(())
}

// The same, with marks of its own.
pub(crate) fn given_tiles(s: &[u8]) -> Result<(), Fault>
    requires { (tile_directory_at s.now < length s.now) × (tile_count s.now ≤ 65536) }
    ensures { result ≡ first_failing (rows_below (tile_count s.now) (given_rows s.now)) }
{
    let mut marks = [0u8; 65536];
    mark_tiles(s, &mut marks);
    marked_rows(s, &marks)
}
