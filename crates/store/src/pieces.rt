// A walk over a rectangle of cells, for products that have made the check: tile by tile, each piece of the rectangle that lies in one tile
// once. Where it stands is a value, the piece itself. Rows and columns count from the rectangle's first.
ghost use Rattle.std.specs.Prelude.{◌≡◌, true, ◌+◌, ◌<◌, leb};
ghost use Rattle.store.specs.Many.{cell_there, tile_holding, number_holding};
ghost use Rattle.store.specs.Pieces.{band_end, piece_in, first_piece, next_piece};

use crate::description;
use crate::many::Rectangle;
use answer::{Held, Refusal};
use geometry::tiles;
use header::fields;

// A piece: its tile, the number inside that of its first cell, the rows from `top` to below `bottom` and the columns from `left` to below
// `right`. A walk is at its end where `top` is the number of the rectangle's rows.
#[derive(Clone, Copy)]
pub struct Piece {
    pub tile: u64,
    pub inside: u64,
    pub top: u64,
    pub bottom: u64,
    pub left: u64,
    pub right: u64,
}

// A piece of a rectangle of a file, with what the memory holds of its tile: what its cells are told from. The kind and the fill are those of
// the rectangle's element, and a tile has `across` columns.
#[derive(Clone, Copy)]
pub struct HeldPiece<'a> {
    pub file: &'a [u8],
    pub compressor: u32,
    pub a: Rectangle,
    pub p: Piece,
    pub held: Result<Held, Refusal>,
    pub memory: &'a [u32],
    pub kind: u32,
    pub fill: u32,
    pub across: u64,
}

// Whether a row or column, counted from one on, comes before a side of the grid ends, however large the sum.
fn precedes(first: u64, at: u64, side: u64) -> bool
    ensures { result ≡ leb (first + at + 1) side }
{
    if side <= first {
        return false;
    }
    if side - first <= at {
        return false;
    }
    true
}

// Whether the grid has a cell of the rectangle.
fn has_cell(file: &[u8], a: Rectangle, r: u64, c: u64) -> bool
    ensures is { result ≡ cell_there file.now (a.row + r) (a.column + c) }
    ensures small { result ≡ true → (a.row + r < 4294967296) × (a.column + c < 4294967296) }
{
    if precedes(a.row, r, fields::grid_rows(file) as u64) {
        return precedes(a.column, c, fields::grid_columns(file) as u64);
    }
    false
}

// The tile of a cell of the rectangle, and its number inside that; 0 where the grid has no such cell.
fn tile_at(file: &[u8], a: Rectangle, r: u64, c: u64) -> u64
    ensures { result ≡ tile_holding file.now (a.row + r) (a.column + c) }
{
    if has_cell(file, a, r, c) {
        return tiles::cell_tile(file, (a.row + r) as u32, (a.column + c) as u32);
    }
    0
}

fn number_at(file: &[u8], a: Rectangle, r: u64, c: u64) -> u64
    ensures { result ≡ number_holding file.now (a.row + r) (a.column + c) }
{
    if has_cell(file, a, r, c) {
        return tiles::cell_inside(file, (a.row + r) as u32, (a.column + c) as u32);
    }
    0
}

// Where the row of tiles that holds a row ends, or the rectangle where that comes first.
pub fn band_end(file: &[u8], a: Rectangle, top: u64) -> u64
    ensures { result ≡ band_end file.now a top }
{
    let shape = description::shape_of(file);
    blocks::block_end(a.row, top, shape.tile_rows as u64, a.rows)
}

// The piece of some rows that starts in a column.
fn piece_in(file: &[u8], a: Rectangle, top: u64, bottom: u64, left: u64) -> Piece
    ensures { result ≡ piece_in file.now a top bottom left }
{
    let shape = description::shape_of(file);
    let side = shape.tile_columns as u64;
    Piece {
        tile: tile_at(file, a, top, left),
        inside: number_at(file, a, top, left),
        top,
        bottom,
        left,
        right: blocks::block_end(a.column, left, side, a.columns),
    }
}

// The first piece of the row of tiles that holds row `top`.
pub fn first_piece(file: &[u8], a: Rectangle, top: u64) -> Piece
    ensures { result ≡ first_piece file.now a top }
{
    if a.columns == 0 {
        return piece_in(file, a, a.rows, a.rows, 0);
    }
    piece_in(file, a, top, band_end(file, a, top), 0)
}

// The piece behind one: beside it, or the first of the next row of tiles.
pub fn next_piece(file: &[u8], a: Rectangle, p: Piece) -> Piece
    ensures { result ≡ next_piece file.now a p }
{
    if p.right < a.columns {
        return piece_in(file, a, p.top, p.bottom, p.right);
    }
    first_piece(file, a, p.bottom)
}
