// What a tile record says of a cell or of an element, and the fill of an absent tile.
ghost use Rattle.std.specs.Prelude.{◌≡◌, true, ◌+◌, ◌≤◌, ◌<◌, ◌*◌, length};
ghost use Rattle.wire.specs.Bytes.{part, number_at};
ghost use Rattle.header.specs.Element.{cell_size, element};
ghost use Rattle.geometry.specs.Tiles.{cell_inside};
ghost use Rattle.bodies.specs.TileRecord.{section_at, section_length, element_content_at, longest_section};
ghost use Rattle.check_header.specs.Ceilings.{most_tile_side};
ghost use Rattle.unpack.specs.Unpack.{cell_at};
ghost use Rattle.cells.specs.TileCells.{location_of, packed, offset_in, place_in, stored_at, unpackable, unpacked_in, packed_cell, cell_in, fill_of, content_in};
ghost use Rattle.cells.specs.inner.Lookups.{sides_lawful, cell_reached, content_reached};

use answer::{Cell, Extent, Location, Refusal};
use bodies::tile_record;
use geometry::{sizes, tiles};
use header::{entries, fields};

// The type code of element e, without the rest of its entry.
pub(crate) fn kind_of(s: &[u8], e: u32) -> u32
    ensures { result ≡ (element s.now e).kind }
{
    wire::byte_at(s, entries::entry_start(s, e as usize))
}

// Where the section of element e of the tile record at x starts.
pub(crate) fn section(s: &[u8], x: usize, e: u32) -> usize
    requires { x < length s.now }
    ensures is { result ≡ section_at s.now x e }
    ensures near { result ≤ length s.now + 12 + longest_section }
{
    tile_record::section_start(s, x, e)
}

// Whether its length L is below U.
pub(crate) fn is_packed(s: &[u8], x: usize, e: u32) -> bool
    requires { x < length s.now }
    ensures { result ≡ packed s.now x e }
{
    let l = wire::u32_at(s, section(s, x, e)) as u64;
    if l < sizes::element_bytes(s, e as usize) {
        return true;
    }
    false
}

// Where a cell lies: its tile, and its number inside the tile.
pub(crate) fn location_of(s: &[u8], row: u32, column: u32) -> Location
    ensures { result ≡ location_of s.now row column }
{
    let tile = tiles::cell_tile(s, row, column);
    let inside = tiles::cell_inside(s, row, column);
    Location { tile, inside }
}

// Where a cell starts in its element's content.
pub(crate) fn offset_in(s: &[u8], row: u32, column: u32, e: u32) -> u64
    requires { sides_lawful s.now ≡ true }
    ensures is { result ≡ offset_in s.now row column e }
    ensures near { result ≤ most_tile_side * most_tile_side * 4 }
{
    sizes::cell_offset(kind_of(s, e), tiles::cell_inside(s, row, column) as u32)
}

// A cell's place.
fn place_in(s: &[u8], x: usize, row: u32, column: u32, e: u32) -> usize
    requires { (x < length s.now) × (sides_lawful s.now ≡ true) }
    ensures { result ≡ place_in s.now x row column e }
{
    let at = section(s, x, e);
    at + 4 + offset_in(s, row, column, e) as usize
}

// The bit pattern d behind a position, however large the sum, of an element of a type code.
pub(crate) fn bits_at(s: &[u8], kind: u32, at: usize, d: usize) -> u32
    ensures { result ≡ number_at (cell_size kind) s.now (at + d) }
{
    if kind == entries::SHORT {
        return wire::u16_off(s, at, d);
    }
    wire::u32_off(s, at, d)
}

// The cell that is stored there.
pub(crate) fn stored_at(s: &[u8], location: Location, e: u32, place: usize) -> Result<Cell, Refusal>
    ensures { result ≡ stored_at s.now location e place }
{
    let kind = kind_of(s, e);
    Ok(Cell::Stored {
        value: answer::value_of(kind, bits_at(s, kind, place, 0)),
        place,
        location,
    })
}

// Whether its compressed content is unpacked: its first byte is the caller's compressor index, and the element is no Float.
pub(crate) fn is_unpackable(s: &[u8], compressor: u32, x: usize, e: u32) -> bool
    requires { x < length s.now }
    ensures { result ≡ unpackable s.now compressor x e }
{
    if 255 < compressor {
        return false;
    }
    let at = section(s, x, e);
    if wire::byte_at(s, at + 4) != compressor {
        return false;
    }
    if kind_of(s, e) == entries::FLOAT {
        return false;
    }
    true
}

// The L bytes of its content.
pub(crate) fn content_of(s: &[u8], x: usize, e: u32) -> &[u8]
    requires { x < length s.now }
    ensures { result.now ≡ part s.now (element_content_at s.now x e) (section_length s.now x e) }
{
    let at = section(s, x, e);
    let l = wire::u32_at(s, at) as usize;
    wire::part_of(s, at + 4, l)
}

// What it holds for a cell.
fn unpacked_at(s: &[u8], x: usize, row: u32, column: u32, e: u32) -> Option<u32>
    requires { (x < length s.now) × (sides_lawful s.now ≡ true) }
    ensures { result ≡ cell_at (unpacked_in s.now x e) (cell_inside s.now row column) }
{
    let short = kind_of(s, e) == entries::SHORT;
    let inside = tiles::cell_inside(s, row, column) as usize;
    unpack::unpack_cell(
        content_of(s, x, e),
        fields::tile_rows(s),
        fields::tile_columns(s),
        short,
        inside,
    )
}

// A cell of compressed content.
fn packed_cell(
    s: &[u8],
    compressor: u32,
    x: usize,
    row: u32,
    column: u32,
    e: u32,
) -> Result<Cell, Refusal>
    requires { (x < length s.now) × (sides_lawful s.now ≡ true) }
    ensures { result ≡ packed_cell s.now compressor x row column e }
{
    if is_unpackable(s, compressor, x, e) {
        return match unpacked_at(s, x, row, column, e) {
            Some(bits) => Ok(Cell::Unpacked {
                value: answer::value_of(kind_of(s, e), bits),
                place: section(s, x, e) + 4,
                location: location_of(s, row, column),
            }),
            None => Err(Refusal::Malformed(x)),
        };
    }
    Err(Refusal::Compressed(x))
}

// The cell, as the tile record at x has it.
fn cell_in(
    s: &[u8],
    compressor: u32,
    x: usize,
    row: u32,
    column: u32,
    e: u32,
) -> Result<Cell, Refusal>
    requires { (x < length s.now) × (sides_lawful s.now ≡ true) }
    ensures { result ≡ cell_in s.now compressor x row column e }
{
    if is_packed(s, x, e) {
        return packed_cell(s, compressor, x, row, column, e);
    }
    let location = location_of(s, row, column);
    stored_at(s, location, e, place_in(s, x, row, column, e))
}

// A cell of an absent tile.
pub(crate) fn fill_of(s: &[u8], location: Location, e: u32) -> Result<Cell, Refusal>
    ensures { result ≡ fill_of s.now location e }
{
    let x = entries::element(s, e as usize);
    let kind = x.kind;
    let fill = x.fill;
    Ok(Cell::Fill {
        value: answer::value_of(kind, fill),
        location,
    })
}

// An element's content, as the tile record at x has it.
fn content_in(s: &[u8], x: usize, e: u32) -> Result<Option<Extent>, Refusal>
    requires { (x < length s.now) × (sides_lawful s.now ≡ true) }
    ensures { result ≡ content_in s.now x e }
{
    if is_packed(s, x, e) {
        return Err(Refusal::Compressed(x));
    }
    let at = section(s, x, e);
    Ok(Some(Extent {
        start: at + 4,
        length: sizes::element_bytes(s, e as usize) as usize,
    }))
}

// The cell, by the record that was found for its tile: 9 where that starts past the file.
pub(crate) fn cell_reached(
    s: &[u8],
    compressor: u32,
    found: Option<usize>,
    row: u32,
    column: u32,
    e: u32,
) -> Result<Cell, Refusal>
    requires { sides_lawful s.now ≡ true }
    ensures { result ≡ cell_reached s.now compressor row column e found }
{
    match found {
        None => fill_of(s, location_of(s, row, column), e),
        Some(x) => {
            if x < s.len() {
                return cell_in(s, compressor, x, row, column, e);
            }
            Err(Refusal::Directory)
        }
    }
}

// An element's content, by the record that was found.
pub(crate) fn content_reached(
    s: &[u8],
    found: Option<usize>,
    e: u32,
) -> Result<Option<Extent>, Refusal>
    requires { sides_lawful s.now ≡ true }
    ensures { result ≡ content_reached s.now e found }
{
    match found {
        None => Ok(None),
        Some(x) => {
            if x < s.len() {
                return content_in(s, x, e);
            }
            Err(Refusal::Directory)
        }
    }
}
