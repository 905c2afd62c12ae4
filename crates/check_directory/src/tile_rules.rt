// Stage 9: the tile directory, whole.
ghost use Rattle.std.specs.Prelude.{◌≡◌, ◌≤◌};
ghost use Rattle.wire.specs.Lists.{one_if, count_below};
ghost use Rattle.record.specs.Record.{padded};
ghost use Rattle.geometry.specs.Tiles.{tiles_down, tiles_across};
ghost use Rattle.check_directory.specs.TileRules.{gives, tile_directory_right, form_right, rectangle_right, span_right};
ghost use Rattle.bodies.specs.TileDirectory.{reference_count, first_row, first_column, tile_directory_at, listed_rows, listed_columns, references_end};

use crate::references;
use bodies::tile_directory;
use geometry::tiles;
use header::fields;
use record::{chain, frame};

// The fields that pick the form have a printed value.
fn form_right(s: &[u8]) -> bool
    ensures { result ≡ form_right s.now }
{
    let at = tile_directory::tile_directory_at(s);
    if tile_directory::directory_format(s, at) != 0 {
        return false;
    }
    if 1 < tile_directory::standard_references(s, at) {
        return false;
    }
    true
}

// One direction of the rectangle.
fn span_right(start: u32, side: u32, tiles: u32) -> bool
    ensures { result ≡ span_right start side tiles }
{
    if wire::LARGEST_INTEGER < start {
        return false;
    }
    if wire::LARGEST_INTEGER < side {
        return false;
    }
    if tiles < start {
        return false;
    }
    if tiles - start < side {
        return false;
    }
    true
}

fn rows_right(s: &[u8]) -> bool
    ensures { result ≡ span_right (first_row s.now (tile_directory_at s.now)) (listed_rows s.now (tile_directory_at s.now)) (tiles_down s.now) }
{
    let at = tile_directory::tile_directory_at(s);
    span_right(
        tile_directory::first_row(s, at),
        tile_directory::listed_rows(s, at),
        tiles::tiles_down(s),
    )
}

fn columns_right(s: &[u8]) -> bool
    ensures { result ≡ span_right (first_column s.now (tile_directory_at s.now)) (listed_columns s.now (tile_directory_at s.now)) (tiles_across s.now) }
{
    let at = tile_directory::tile_directory_at(s);
    span_right(
        tile_directory::first_column(s, at),
        tile_directory::listed_columns(s, at),
        tiles::tiles_across(s),
    )
}

// The rectangle ends inside the tile grid.
fn rectangle_right(s: &[u8]) -> bool
    ensures { result ≡ rectangle_right s.now }
{
    if rows_right(s) {
        return columns_right(s);
    }
    false
}

// The references fit their record with 0 to 7 padding bytes.
fn references_fit(s: &[u8]) -> bool
    ensures { result ≡ padded s.now (tile_directory_at s.now) (references_end s.now) }
{
    frame::entries_fit(
        s,
        tile_directory::tile_directory_at(s),
        32,
        tile_directory::reference_count(s),
        tile_directory::reference_size(s),
    )
}

// 1 where reference number k is not zero, else 0.
fn given_at(s: &[u8], k: u64) -> u64
    ensures is { result ≡ one_if (gives s.now k) }
    ensures small { result ≤ 1 }
{
    let at = tile_directory::tile_directory_at(s);
    if tile_directory::reference_at(s, at, k) == 0 {
        return 0;
    }
    1
}

// How many of the references are not zero.
fn references_given(s: &[u8]) -> u64
    ensures { result ≡ count_below (reference_count s.now) (gives s.now) }
{
    let n = tile_directory::reference_count(s);
    let mut given = 0;
    for k in 0..n {
        given += given_at(s, k);
    }
    given
}

// The tile directory is right. Where every tile record is listed at its own index, nothing else is listed just where there
// are as many references that are not zero as tile records: so one pass over the references is enough.
pub fn tile_directory_right(s: &[u8]) -> bool
    ensures { result ≡ tile_directory_right s.now }
{
    let reference = fields::tile_directory_reference(s);
    if !references::refers_to(s, record::TILE_DIRECTORY, reference) {
        return false;
    }
    if !references::no_other(s, record::TILE_DIRECTORY, reference) {
        return false;
    }
    if !form_right(s) {
        return false;
    }
    if !rectangle_right(s) {
        return false;
    }
    if !references_fit(s) {
        return false;
    }
    if !references::tiles_listed(s) {
        return false;
    }
    let tiles = chain::record_count(s, record::TILE) as u64;
    if references_given(s) != tiles {
        return false;
    }
    true
}
