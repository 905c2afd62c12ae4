// Stage 9: the tile directory, rules 49 to 57.
#![tactic(auto, using(reasons::proofs::ReasonLaws::chain), unfolding(crate::specs::DirectoryRows::then_rows, crate::specs::DirectoryRows::span_rows, crate::specs::DirectoryRows::form_rows, crate::specs::DirectoryRows::rectangle_rows, crate::specs::DirectoryRows::tile_referred_rows, crate::specs::DirectoryRows::tile_list_rows, crate::specs::DirectoryRows::tile_directory_rows))]

ghost use Rattle.std.specs.Prelude.{◌≡◌, ◌+◌, ◌≤◌, ◌<◌, min, length};
ghost use Rattle.geometry.specs.Tiles.{tiles_down, tiles_across, tile_count};
ghost use Rattle.bodies.specs.TileDirectory.{tile_directory_at, first_row, first_column, listed_rows, listed_columns, references_end};
ghost use Rattle.reasons.specs.Rows.{first_failing};
ghost use Rattle.explain.specs.DirectoryRows.{farthest, reference_place, padded_rows, span_rows, form_rows, rectangle_rows, then_rows, tile_referred_rows, tile_frame_rows, tile_list_rows, tile_directory_rows};

use crate::{given, over, padding};
use bodies::tile_directory;
use check_directory::references;
use geometry::tiles;
use header::fields;
use reasons::{Fault, rows};

// No number found in these rules is above it.
const FARTHEST: u64 = 10000000000000000000;

// The header refers to a tile directory.
fn referred_row(s: &[u8]) -> Result<(), Fault>
    ensures { result ≡ first_failing (tile_referred_rows s.now) }
{
    let reference = fields::tile_directory_reference(s);
    let kept = references::refers_to(s, record::TILE_DIRECTORY, reference);
    rows::holds(49, 0, 80, reference, 0, kept)
}

fn form(s: &[u8]) -> Result<(), Fault>
    requires { tile_directory_at s.now < length s.now }
    ensures { result ≡ first_failing (form_rows s.now (tile_directory_at s.now)) }
{
    let at = tile_directory::tile_directory_at(s);
    let format = tile_directory::directory_format(s, at) as u64;
    let standard = tile_directory::standard_references(s, at) as u64;
    rows::equal(51, 0, (at + 8) as u64, format, 0)?;
    rows::at_most(52, 0, (at + 9) as u64, standard, 1)
}

// One direction of the rectangle.
fn span(i: u64, p: u64, q: u64, start: u32, side: u32, tiles: u32) -> Result<(), Fault>
    ensures { result ≡ first_failing (span_rows i p q start side tiles) }
{
    let most = wire::LARGEST_INTEGER as u64;
    rows::at_most(53, i, p, start as u64, most)?;
    rows::at_most(54, i, q, side as u64, most)?;
    let end = start as u64 + side as u64;
    rows::at_most(55, i, q, end, tiles as u64)
}

fn span_down(s: &[u8], at: usize) -> Result<(), Fault>
    requires { at < length s.now }
    ensures { result ≡ first_failing (span_rows 0 (at + 16) (at + 24) (first_row s.now at) (listed_rows s.now at) (tiles_down s.now)) }
{
    let start = tile_directory::first_row(s, at);
    let side = tile_directory::listed_rows(s, at);
    span(
        0,
        (at + 16) as u64,
        (at + 24) as u64,
        start,
        side,
        tiles::tiles_down(s),
    )
}

fn span_across(s: &[u8], at: usize) -> Result<(), Fault>
    requires { at < length s.now }
    ensures { result ≡ first_failing (span_rows 1 (at + 20) (at + 28) (first_column s.now at) (listed_columns s.now at) (tiles_across s.now)) }
{
    let start = tile_directory::first_column(s, at);
    let side = tile_directory::listed_columns(s, at);
    span(
        1,
        (at + 20) as u64,
        (at + 28) as u64,
        start,
        side,
        tiles::tiles_across(s),
    )
}

fn rectangle(s: &[u8], at: usize) -> Result<(), Fault>
    requires { at < length s.now }
    ensures { result ≡ first_failing (rectangle_rows s.now at) }
{
    span_down(s, at)?;
    span_across(s, at)
}

// Where the references begin.
fn references_from(s: &[u8]) -> u64
    requires { tile_directory_at s.now < length s.now }
    ensures is { result ≡ tile_directory_at s.now + 32 }
    ensures near { result ≤ farthest }
{
    tile_directory::tile_directory_at(s) as u64 + 32
}

// Where reference number n begins, held under the farthest.
pub(crate) fn place_of(s: &[u8], n: u64) -> u64
    requires { tile_directory_at s.now < length s.now }
    ensures { result ≡ reference_place s.now n }
{
    let from = references_from(s);
    let at = tile_directory::tile_directory_at(s);
    if tile_directory::standard_references(s, at) == 1 {
        if (FARTHEST - from) / 8 < n {
            return FARTHEST;
        }
        return from + n * 8;
    }
    if (FARTHEST - from) / 4 < n {
        return FARTHEST;
    }
    from + n * 4
}

// Where the last one ends, held under the farthest.
fn references_end(s: &[u8]) -> u64
    requires { tile_directory_at s.now < length s.now }
    ensures { result ≡ min (references_end s.now) farthest }
{
    place_of(s, tile_directory::reference_count(s))
}

// The references fit their record.
fn references_padded(s: &[u8]) -> Result<(), Fault>
    requires { tile_directory_at s.now < length s.now }
    ensures { result ≡ first_failing (padded_rows s.now 56 (tile_directory_at s.now) (references_end s.now)) }
{
    let at = tile_directory::tile_directory_at(s);
    let end = references_end(s);
    padding::padding(s, 56, at, end)
}

// Rules 50 to 57.
#[tactic(auto, using(reasons::proofs::ReasonLaws::chain), unfolding(crate::specs::DirectoryRows::tile_frame_rows))]
fn tile_frame(s: &[u8]) -> Result<(), Fault>
    requires { tile_directory_at s.now < length s.now }
    ensures { result ≡ first_failing (tile_frame_rows s.now) }
{
    let reference = fields::tile_directory_reference(s);
    over::others(s, record::TILE_DIRECTORY, 50, reference)?;
    form(s)?;
    let at = tile_directory::tile_directory_at(s);
    rectangle(s, at)?;
    references_padded(s)
}

// Rules 58 and 59.
fn tile_list(s: &[u8]) -> Result<(), Fault>
    requires { (tile_directory_at s.now < length s.now) × (tile_count s.now ≤ 65536) }
    ensures { result ≡ first_failing (tile_list_rows s.now) }
{
    over::tile_records_listed(s)?;
    given::given_tiles(s)
}

// Rules 50 to 59.
fn tile_behind(s: &[u8]) -> Result<(), Fault>
    requires { (tile_directory_at s.now < length s.now) × (tile_count s.now ≤ 65536) }
    ensures { result ≡ first_failing (then_rows (tile_frame_rows s.now) (tile_list_rows s.now)) }
{
    tile_frame(s)?;
    tile_list(s)
}

// Rules 49 to 59: the tile directory.
pub(crate) fn tile_directory_row(s: &[u8]) -> Result<(), Fault>
    requires { tile_count s.now ≤ 65536 }
    ensures { result ≡ first_failing (tile_directory_rows s.now) }
{
    referred_row(s)?;
    tile_behind(s)
}
