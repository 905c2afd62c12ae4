// Tiles across and down, the tile of a cell, and its number inside.
ghost use Rattle.std.specs.Prelude.{◌≡◌, ◌/◌, ◌%◌, ◌≤◌};
ghost use Rattle.geometry.specs.Tiles.{tiles_along, tile_of, inside_of, tiles_across, tiles_down, tile_count, cell_tile, cell_inside};

use header::fields;

// The quotient and the remainder, for a divisor of 0 too.
pub fn quotient(a: u32, b: u32) -> u32
    ensures is { result ≡ a / b }
    ensures small { result ≤ a }
{
    if b == 0 {
        return 0;
    }
    a / b
}

pub fn remainder(a: u32, b: u32) -> u32
    ensures is { result ≡ a % b }
    ensures small { result ≤ a }
{
    if b == 0 {
        return a;
    }
    a % b
}

// The tiles that a side of the grid takes.
fn tiles_along(side: u32, tile: u32) -> u32
    ensures { result ≡ tiles_along side tile }
{
    if tile == 0 {
        return 0;
    }
    let sum = side as u64 + (tile - 1) as u64;
    (sum / (tile as u64)) as u32
}

// The tile of a cell, of tiles of h rows and w columns, `across` of them in a row of tiles.
fn tile_of(h: u32, w: u32, across: u32, row: u32, column: u32) -> u64
    ensures { result ≡ tile_of h w across row column }
{
    let down = quotient(row, h) as u64;
    let right = quotient(column, w) as u64;
    down * (across as u64) + right
}

// The cell's number inside its tile.
fn inside_of(h: u32, w: u32, row: u32, column: u32) -> u64
    ensures { result ≡ inside_of h w row column }
{
    let down = remainder(row, h) as u64;
    let right = remainder(column, w) as u64;
    down * (w as u64) + right
}

// The same of a file.
pub fn tiles_across(s: &[u8]) -> u32
    ensures { result ≡ tiles_across s.now }
{
    tiles_along(fields::grid_columns(s), fields::tile_columns(s))
}

pub fn tiles_down(s: &[u8]) -> u32
    ensures { result ≡ tiles_down s.now }
{
    tiles_along(fields::grid_rows(s), fields::tile_rows(s))
}

pub fn tile_count(s: &[u8]) -> u64
    ensures { result ≡ tile_count s.now }
{
    tiles_down(s) as u64 * (tiles_across(s) as u64)
}

pub fn cell_tile(s: &[u8], row: u32, column: u32) -> u64
    ensures { result ≡ cell_tile s.now row column }
{
    tile_of(
        fields::tile_rows(s),
        fields::tile_columns(s),
        tiles_across(s),
        row,
        column,
    )
}

pub fn cell_inside(s: &[u8], row: u32, column: u32) -> u64
    ensures { result ≡ cell_inside s.now row column }
{
    inside_of(fields::tile_rows(s), fields::tile_columns(s), row, column)
}
