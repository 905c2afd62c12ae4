// A tile record put into a lent buffer, and cell bytes over those of one. The elements' sizes are handed on as numbers, 16 at most.
ghost use Rattle.std.specs.Prelude.{◌≡◌, ◌+◌, ◌-◌, ◌≤◌, ◌++◌, length};
ghost use Rattle.wire.specs.Bytes.{bytes_of};
ghost use Rattle.geometry.specs.Sizes.{stored_size};
ghost use Rattle.record.specs.Types.{tile_type};
ghost use Rattle.written_records.specs.Pieces.{section, record_head};
ghost use Rattle.written_records.specs.Tile.{sections_of, plain_record};
ghost use Rattle.stores.specs.Stores.{store_count, stopped};
ghost use Rattle.stores.specs.Writes.{one_write, whole_write};
ghost use Rattle.correct.specs.RecordWrites.{size_in, cell_writes, over_writes};

use crate::records;
use stores;
use written_records::pieces as parts;

const TILE: u8 = record::TILE as u8;

// An element's section of a tile record: its length, its bytes, and the padding.
fn put_section_cut(out: &mut [u8], at: usize, bytes: &[u8], k: usize) -> usize
    requires { at + stored_size (length bytes.now) ≤ length out.old }
    ensures left { result ≡ k - store_count (one_write at (section bytes.now)) }
    ensures holds { out.new ≡ stopped k (one_write at (section bytes.now)) out.old }
{
    let n = bytes.len();
    let pad = parts::padding(n);
    let a = stores::put_u32_cut(out, at, (n % 4294967296) as u32, k);
    let b = stores::put_cut(out, at + 4, bytes, a);
    stores::put_zeros_cut(out, at + 4 + n, pad, b)
}

// How many bytes the section of n bytes takes.
fn stored_length(n: usize) -> usize
    requires { n ≤ 4294967295 }
    ensures { result ≡ stored_size n }
{
    4 + (n + 3) / 4 * 4
}

// How many bytes the sections of the first m elements take.
fn sections_length(sizes: &[u32], m: usize, cells: &[u8]) -> usize
    requires { m ≤ 255 }
    ensures is { result ≡ length (sections_of (size_in sizes.now) m cells.now) }
    ensures small { result ≤ 1095216664560 }
{
    let mut sum = 0;
    let mut from = 0;
    for e in 0..m {
        let u = wire::number_in(sizes, e) as usize;
        let n = wire::part_of(cells, from, u).len();
        sum += stored_length(n);
        from += u;
    }
    sum
}

// The sections of the first m elements.
fn put_sections_cut(
    out: &mut [u8],
    at: usize,
    sizes: &[u32],
    m: usize,
    cells: &[u8],
    k: usize,
) -> usize
    requires { (m ≤ 255) × (at + length (sections_of (size_in sizes.now) m cells.now) ≤ length out.old) }
    ensures left { result ≡ k - store_count (one_write at (sections_of (size_in sizes.now) m cells.now)) }
    ensures holds { out.new ≡ stopped k (one_write at (sections_of (size_in sizes.now) m cells.now)) out.old }
{
    let mut left = k;
    let mut p = at;
    let mut from = 0;
    for e in 0..m {
        let u = wire::number_in(sizes, e) as usize;
        let bytes = wire::part_of(cells, from, u);
        left = put_section_cut(out, p, bytes, left);
        p += stored_length(bytes.len());
        from += u;
    }
    left
}

// A tile record's head and its index.
fn put_tile_head_cut(out: &mut [u8], at: usize, n: usize, index: u32, k: usize) -> usize
    requires { at + 12 ≤ length out.old }
    ensures left { result ≡ k - store_count (one_write at (record_head n tile_type ++ bytes_of 4 index)) }
    ensures holds { out.new ≡ stopped k (one_write at (record_head n tile_type ++ bytes_of 4 index)) out.old }
{
    let a = records::put_head_cut(out, at, n, TILE, k);
    stores::put_u32_cut(out, at + 8, index, a)
}

// The record of a tile whose elements are all uncompressed.
pub fn put_tile_cut(
    out: &mut [u8],
    at: usize,
    index: u32,
    flag: u32,
    sizes: &[u32],
    m: u8,
    cells: &[u8],
    k: usize,
) -> usize
    ensures left { result ≡ k - store_count (whole_write (length out.old) at (plain_record flag index (size_in sizes.now) m cells.now)) }
    ensures holds { out.new ≡ stopped k (whole_write (length out.old) at (plain_record flag index (size_in sizes.now) m cells.now)) out.old }
{
    let body = 4 + sections_length(sizes, m as usize, cells);
    let n = records::record_length(body);
    let room = out.len();
    if room < n {
        return k;
    }
    if room - n < at {
        return k;
    }
    let a = put_tile_head_cut(out, at, n, index, k);
    let b = put_sections_cut(out, at + 12, sizes, m as usize, cells, a);
    let c = stores::put_zeros_cut(out, at + 8 + body, n - 4 - (8 + body), b);
    stores::seal_cut(out, at, n, flag, c)
}

// The cell bytes of the first m elements, over those of the plain tile record at x.
fn put_cells_cut(out: &mut [u8], x: usize, sizes: &[u32], m: usize, cells: &[u8], k: usize) -> usize
    requires { (m ≤ 255) × (x ≤ 4294967295) }
    ensures left { result ≡ k - store_count (cell_writes x (size_in sizes.now) cells.now m) }
    ensures holds { out.new ≡ stopped k (cell_writes x (size_in sizes.now) cells.now m) out.old }
{
    let mut left = k;
    let mut p = x + 16;
    let mut from = 0;
    for e in 0..m {
        let u = wire::number_in(sizes, e) as usize;
        left = stores::put_cut(out, p, wire::part_of(cells, from, u), left);
        p += stored_length(u);
        from += u;
    }
    left
}

// The same with the record's checksum, over the buffer's own bytes. The record is n bytes long.
pub fn put_over_cut(
    out: &mut [u8],
    x: u32,
    n: usize,
    flag: u32,
    sizes: &[u32],
    m: u8,
    cells: &[u8],
    k: usize,
) -> usize
    ensures left { result ≡ k - store_count (over_writes flag x n (size_in sizes.now) m cells.now out.old) }
    ensures holds { out.new ≡ stopped k (over_writes flag x n (size_in sizes.now) m cells.now out.old) out.old }
{
    let a = put_cells_cut(out, x as usize, sizes, m as usize, cells, k);
    stores::seal_cut(out, x as usize, n, flag, a)
}
