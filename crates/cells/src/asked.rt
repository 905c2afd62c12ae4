// What may be asked for. A row, column or element number that is there fits in 32 bits.
ghost use Rattle.std.specs.Prelude.{◌≡◌, true, ◌<◌};
ghost use Rattle.cells.specs.Asked.{in_grid, in_tiles};

use geometry::tiles;
use header::fields;

// A cell of the grid, by row, column and element number.
pub fn in_grid(s: &[u8], row: u64, column: u64, e: u64) -> bool
    ensures is { result ≡ in_grid s.now row column e }
    ensures small { result ≡ true → (row < 4294967296) × ((column < 4294967296) × (e < 4294967296)) }
{
    if fields::grid_rows(s) as u64 <= row {
        return false;
    }
    if fields::grid_columns(s) as u64 <= column {
        return false;
    }
    if fields::element_count(s) as u64 <= e {
        return false;
    }
    true
}

// An element of a tile, by tile index and element number.
pub fn in_tiles(s: &[u8], tile: u64, e: u64) -> bool
    ensures is { result ≡ in_tiles s.now tile e }
    ensures small { result ≡ true → e < 4294967296 }
{
    if tiles::tile_count(s) <= tile {
        return false;
    }
    if fields::element_count(s) as u64 <= e {
        return false;
    }
    true
}
