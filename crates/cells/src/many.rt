// Many reads after one check: a cell, told from what is held of all cells of its element in its tile. Nothing is checked here, and what
// is held may be anything.
ghost use Rattle.std.specs.Prelude.{◌≡◌, true};
ghost use Rattle.cells.specs.inner.Lookups.{sides_lawful};
ghost use Rattle.cells.specs.Many.{stored_from, numbered_cell, told_by, held_cell};

use crate::{asked, lookups, reads, tile_cells};
use answer::{Cell, Held, Location, Refusal};
use geometry::{sizes, tiles};
use header::entries;

// A stored cell, by where its element's content starts, its tile and its number inside that: 9 where that start is past the file.
fn stored_from(s: &[u8], kind: u32, at: usize, tile: u64, inside: u32) -> Result<Cell, Refusal>
    ensures { result ≡ stored_from s.now kind at tile inside }
{
    if at < s.len() {
        let place = at + sizes::cell_offset(kind, inside) as usize;
        return Ok(Cell::Stored {
            value: answer::value_of(kind, tile_cells::bits_at(s, kind, place, 0)),
            place,
            location: Location {
                tile,
                inside: inside as u64,
            },
        });
    }
    Err(Refusal::Directory)
}

// The cell with a number inside its tile, of an element of a type code and a fill: in a step or two, without a look at the grid. 9 where
// each is looked up by itself.
pub fn numbered_cell(
    s: &[u8],
    kind: u32,
    fill: u32,
    held: Result<Held, Refusal>,
    memory: &[u32],
    tile: u64,
    inside: u32,
) -> Result<Cell, Refusal>
    ensures { result ≡ numbered_cell s.now kind fill memory.now tile inside held }
{
    let location = Location {
        tile,
        inside: inside as u64,
    };
    match held? {
        Held::Stored(at) => stored_from(s, kind, at, tile, inside),
        Held::Unpacked(at) => Ok(Cell::Unpacked {
            value: answer::value_of(kind, wire::number_in(memory, inside as usize)),
            place: at,
            location,
        }),
        Held::Absent => Ok(Cell::Fill {
            value: answer::value_of(kind, fill),
            location,
        }),
        Held::Alone => Err(Refusal::Directory),
    }
}

// A cell of the grid.
fn told_by(
    s: &[u8],
    compressor: u32,
    held: Result<Held, Refusal>,
    memory: &[u32],
    row: u32,
    column: u32,
    e: u32,
) -> Result<Cell, Refusal>
    requires { sides_lawful s.now ≡ true }
    ensures { result ≡ told_by s.now compressor memory.now row column e held }
{
    if answer::held_kind(held) == 0 {
        return reads::cell_of_accepted(s, compressor, row as u64, column as u64, e as u64);
    }
    let x = entries::element(s, e as usize);
    let tile = tiles::cell_tile(s, row, column);
    let inside = tiles::cell_inside(s, row, column) as u32;
    numbered_cell(s, x.kind, x.fill, held, memory, tile, inside)
}

// Any cell: 10 outside the grid, then 9 where the sides do not keep stages 3 and 4.
pub fn cell_held(
    s: &[u8],
    compressor: u32,
    held: Result<Held, Refusal>,
    memory: &[u32],
    row: u64,
    column: u64,
    e: u64,
) -> Result<Cell, Refusal>
    ensures { result ≡ held_cell s.now compressor held memory.now row column e }
{
    if asked::in_grid(s, row, column, e) {
        if lookups::sides_lawful(s) {
            return told_by(
                s,
                compressor,
                held,
                memory,
                row as u32,
                column as u32,
                e as u32,
            );
        }
        return Err(Refusal::Directory);
    }
    Err(Refusal::OutsideGrid)
}
