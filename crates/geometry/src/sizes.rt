// U, L, the bytes of a tile and the least record length.
ghost use Rattle.std.specs.Prelude.{◌≡◌, ◌+◌, ◌≤◌, min};
ghost use Rattle.header.specs.Fields.{tile_rows, tile_columns};
ghost use Rattle.geometry.specs.Sizes.{uncompressed, packing_of, cell_offset, stored_size, least_length, element_bytes, tile_bytes, cap};

use crate::Packing;
use header::{entries, fields};

// Above every length of four bytes, so none of them tells it from a greater U.
const CAP: u64 = 4294967296;

// U, or the cap where U is more. No enum for a type code here: header::Element says why.
fn uncompressed(h: u32, w: u32, kind: u32) -> u64
    ensures { result ≡ min (uncompressed h w kind) cap }
{
    let cells = h as u64 * (w as u64);
    let size = entries::cell_size(kind) as u64;
    if CAP < cells {
        return CAP;
    }
    let u = cells * size;
    if u <= CAP {
        return u;
    }
    CAP
}

// A length L against U.
fn packing_of(l: u32, u: u64) -> Packing
    ensures { result ≡ packing_of l u }
{
    if l == 0 {
        return Packing::Fault;
    }
    let n = l as u64;
    if n == u {
        return Packing::Uncompressed;
    }
    if n <= u {
        return Packing::Compressed;
    }
    Packing::Fault
}

// Where a cell starts in its element's uncompressed content.
pub fn cell_offset(kind: u32, inside: u32) -> u64
    ensures { result ≡ cell_offset kind inside }
{
    inside as u64 * (entries::cell_size(kind) as u64)
}

// A length field of four bytes, L bytes, and 0 to 3 more.
pub fn stored_size(l: u32) -> u64
    ensures { result ≡ stored_size l }
{
    4 + (l as u64 + 3) / 4 * 4
}

// The least multiple of 8 that holds so many bytes of a record and its checksum.
pub fn least_length(n: u32) -> u64
    ensures { result ≡ least_length n }
{
    (n as u64 + 4 + 7) / 8 * 8
}

// U of a file's element, or the cap where U is more.
pub fn element_bytes(s: &[u8], e: usize) -> u64
    ensures { result ≡ min (element_bytes s.now e) cap }
{
    let x = entries::element(s, e);
    let h = fields::tile_rows(s);
    let w = fields::tile_columns(s);
    let kind = x.kind;
    uncompressed(h, w, kind)
}

// A length L against U of an element of a type code.
pub fn kind_packing(s: &[u8], kind: u32, l: u32) -> Packing
    ensures { result ≡ packing_of l (uncompressed (tile_rows s.now) (tile_columns s.now) kind) }
{
    let h = fields::tile_rows(s);
    let w = fields::tile_columns(s);
    packing_of(l, uncompressed(h, w, kind))
}

// The uncompressed bytes of one tile, or the cap where there are more.
pub fn tile_bytes(s: &[u8]) -> u64
    ensures { result ≡ min (tile_bytes s.now) cap }
{
    let mut sum = 0;
    for e in 0..entries::entries_read(s) {
        sum = capped(sum, element_bytes(s, e));
    }
    sum
}

// A sum, or the cap where it is more.
fn capped(a: u64, b: u64) -> u64
    requires { (a ≤ cap) × (b ≤ cap) }
    ensures { result ≡ min (a + b) cap }
{
    (a + b).min(CAP)
}
