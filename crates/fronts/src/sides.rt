// The sides of a page.
ghost use Rattle.std.specs.Prelude.{◌≡◌, true, ◌≤◌};
ghost use Rattle.geometry.specs.Tiles.{tiles_along, tiles_in};
ghost use Rattle.check_header.specs.HeaderRecord.{positive};
ghost use Rattle.check_header.specs.Ceilings.{most_grid_side, most_tile_side};
ghost use Rattle.fronts.specs.Writing.{sides_of, told, allowed};

use geometry::tiles;

// The ceilings of the sides of a grid and of a tile.
const MOST_GRID_SIDE: u32 = 65536;

const MOST_TILE_SIDE: u32 = 4096;

// Rows and columns of the grid and of a tile.
#[derive(Clone, Copy)]
pub(crate) struct Sides {
    pub(crate) rows: u32,
    pub(crate) columns: u32,
    pub(crate) tile_rows: u32,
    pub(crate) tile_columns: u32,
}

// A side is at least 1, and not negative.
fn is_side(x: u32) -> bool
    ensures { result ≡ positive x }
{
    if x < 1 {
        return false;
    }
    if wire::LARGEST_INTEGER < x {
        return false;
    }
    true
}

// The tiles that a side of the grid takes.
fn tiles_on_side(side: u32, tile: u32) -> u32
    requires { (side ≤ most_grid_side) × ((1 ≤ tile) × (tile ≤ most_tile_side)) }
    ensures { result ≡ tiles_along side tile }
{
    tiles::quotient(side + (tile - 1), tile)
}

impl Sides {
    // As they stand among a page's numbers.
    pub(crate) fn of(page: &[u32]) -> Sides
        ensures { result ≡ sides_of page.now }
    {
        Sides {
            rows: wire::number_in(page, 0),
            columns: wire::number_in(page, 1),
            tile_rows: wire::number_in(page, 2),
            tile_columns: wire::number_in(page, 3),
        }
    }

    // Whether each is a side.
    pub(crate) fn are_told(self) -> bool
        ensures { result ≡ told self }
    {
        if is_side(self.rows) {
            if is_side(self.columns) {
                if is_side(self.tile_rows) {
                    return is_side(self.tile_columns);
                }
            }
        }
        false
    }

    // Whether none is above its ceiling.
    pub(crate) fn are_allowed(self) -> bool
        ensures { result ≡ allowed self }
    {
        if MOST_GRID_SIDE < self.rows {
            return false;
        }
        if MOST_GRID_SIDE < self.columns {
            return false;
        }
        if MOST_TILE_SIDE < self.tile_rows {
            return false;
        }
        if MOST_TILE_SIDE < self.tile_columns {
            return false;
        }
        true
    }

    // The number of tiles.
    pub(crate) fn tiles(self) -> u64
        requires { (told self ≡ true) × (allowed self ≡ true) }
        ensures { result ≡ tiles_in self.rows self.columns self.tile_rows self.tile_columns }
    {
        let down = tiles_on_side(self.rows, self.tile_rows);
        let across = tiles_on_side(self.columns, self.tile_columns);
        down as u64 * (across as u64)
    }
}
