// The fields of the tile directory, and what it gives for a tile.
ghost use Rattle.std.specs.Prelude.{◌≡◌, ◌-◌, ◌≤◌};
ghost use Rattle.bodies.specs.TileDirectory.{tile_directory_at, directory_format, standard_references, first_row, first_column, listed_rows, listed_columns, reference_count, reference_size, reference_at, in_span, in_rectangle, number_of, reference_of, reference_from, tile_reference};

use geometry::tiles;
use header::fields;
use record::frame;

// A slice has less than 2^63 bytes: less than 2^60 references of eight bytes, and less than 2^61 of four.
const STANDARD_PAST: u64 = 1152921504606846976;

const COMPACT_PAST: u64 = 2305843009213693952;

// The start of the record that the header refers to.
pub fn tile_directory_at(s: &[u8]) -> usize
    ensures { result ≡ tile_directory_at s.now }
{
    frame::record_of(fields::tile_directory_reference(s))
}

// The fields of a tile directory, whose record starts at a position.
pub fn directory_format(s: &[u8], at: usize) -> u32
    ensures { result ≡ directory_format s.now at }
{
    wire::byte_off(s, at, 8)
}

pub fn standard_references(s: &[u8], at: usize) -> u32
    ensures { result ≡ standard_references s.now at }
{
    wire::byte_off(s, at, 9)
}

pub fn first_row(s: &[u8], at: usize) -> u32
    ensures { result ≡ first_row s.now at }
{
    wire::u32_off(s, at, 16)
}

pub fn first_column(s: &[u8], at: usize) -> u32
    ensures { result ≡ first_column s.now at }
{
    wire::u32_off(s, at, 20)
}

pub fn listed_rows(s: &[u8], at: usize) -> u32
    ensures { result ≡ listed_rows s.now at }
{
    wire::u32_off(s, at, 24)
}

pub fn listed_columns(s: &[u8], at: usize) -> u32
    ensures { result ≡ listed_columns s.now at }
{
    wire::u32_off(s, at, 28)
}

// Whether a row or column of tiles lies in a span.
fn in_span(start: u32, side: u32, x: u32) -> bool
    ensures { result ≡ in_span start side x }
{
    if x < start {
        return false;
    }
    if side <= x - start {
        return false;
    }
    true
}

// The position that reference number k gives; 0 where the number does not lie in the file.
pub fn reference_at(s: &[u8], at: usize, k: u64) -> u64
    ensures { result ≡ reference_at s.now at k }
{
    if standard_references(s, at) == 1 {
        if STANDARD_PAST <= k {
            return 0;
        }
        return wire::u64_off(s, at, 32 + 8 * (k as usize));
    }
    if COMPACT_PAST <= k {
        return 0;
    }
    wire::u32_off(s, at, 32 + 4 * (k as usize)) as u64 * 8
}

// Whether a tile, by its row and column of tiles, lies in the rectangle.
fn in_rectangle(s: &[u8], at: usize, row: u32, column: u32) -> bool
    ensures { result ≡ in_rectangle s.now at row column }
{
    if in_span(first_row(s, at), listed_rows(s, at), row) {
        return in_span(first_column(s, at), listed_columns(s, at), column);
    }
    false
}

// What the directory gives for the tile in a row and a column of tiles.
fn reference_of(s: &[u8], at: usize, row: u32, column: u32) -> u64
    ensures { result ≡ reference_of s.now at row column }
{
    if in_rectangle(s, at, row, column) {
        return reference_at(s, at, number_of(s, at, row, column));
    }
    0
}

// The number of a tile inside the rectangle, row by row.
fn number_of(s: &[u8], at: usize, row: u32, column: u32) -> u64
    ensures { result ≡ number_of s.now at row column }
{
    let down = less(row, first_row(s, at)) as u64;
    let right = less(column, first_column(s, at)) as u64;
    down * (listed_columns(s, at) as u64) + right
}

fn less(a: u32, b: u32) -> u32
    ensures is { result ≡ a - b }
    ensures small { result ≤ a }
{
    if a < b {
        return 0;
    }
    a - b
}

// What the directory gives for a tile index.
pub fn reference_from(s: &[u8], at: usize, i: u32) -> u64
    ensures { result ≡ reference_from s.now at i }
{
    let across = tiles::tiles_across(s);
    reference_of(
        s,
        at,
        tiles::quotient(i, across),
        tiles::remainder(i, across),
    )
}

// The same from the directory that the header refers to.
pub fn tile_reference(s: &[u8], i: u32) -> u64
    ensures { result ≡ tile_reference s.now i }
{
    reference_from(s, tile_directory_at(s), i)
}

// The bytes of a reference.
pub fn reference_size(s: &[u8]) -> u64
    ensures { result ≡ reference_size s.now }
{
    if standard_references(s, tile_directory_at(s)) == 1 {
        return 8;
    }
    4
}

// How many references the rectangle has.
pub fn reference_count(s: &[u8]) -> u64
    ensures { result ≡ reference_count s.now }
{
    let at = tile_directory_at(s);
    let rows = listed_rows(s, at) as u64;
    let columns = listed_columns(s, at) as u64;
    rows * columns
}
