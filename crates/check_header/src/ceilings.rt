// Stage 4: the house ceilings, each of which is allowed itself.
ghost use Rattle.std.specs.Prelude.{◌≡◌};
ghost use Rattle.check_header.specs.Ceilings.{sides_within, within_ceilings};

use geometry::{sizes, tiles};
use header::{entries, fields};

// Sides of the grid and of a tile.
const MOST_GRID_SIDE: u32 = 65536;

const MOST_TILE_SIDE: u32 = 4096;

// Bytes of the file, tiles, and uncompressed bytes of one tile.
pub const MOST_FILE_BYTES: usize = 16777216;

const MOST_TILES: u64 = 65536;

pub const MOST_TILE_BYTES: u64 = 1048576;

pub fn sides_within(s: &[u8]) -> bool
    ensures { result ≡ sides_within s.now }
{
    if MOST_GRID_SIDE < fields::grid_rows(s) {
        return false;
    }
    if MOST_GRID_SIDE < fields::grid_columns(s) {
        return false;
    }
    if MOST_TILE_SIDE < fields::tile_rows(s) {
        return false;
    }
    if MOST_TILE_SIDE < fields::tile_columns(s) {
        return false;
    }
    true
}

pub fn within_ceilings(s: &[u8], length: usize) -> bool
    ensures { result ≡ within_ceilings s.now length }
{
    if MOST_FILE_BYTES < length {
        return false;
    }
    if sides_within(s) {
        if MOST_TILES < tiles::tile_count(s) {
            return false;
        }
        if entries::MOST_ELEMENTS < fields::element_count(s) {
            return false;
        }
        if MOST_TILE_BYTES < sizes::tile_bytes(s) {
            return false;
        }
        return true;
    }
    false
}
