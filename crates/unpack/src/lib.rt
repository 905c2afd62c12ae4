// The content of a compressed element of a tile: its head, its tree, and the cells that its numbers give. A number is passed as the
// u32 of its bits.
#![tactic(auto)]

mod head;
mod reading;
mod rows;
mod values;

ghost use Rattle.std.specs.Prelude.{◌≡◌, true};
ghost use Rattle.wire.specs.Bytes.{put};
ghost use Rattle.unpack.specs.Unpack.{unpacked, cell_at, cells_in, is_whole};

use rows::unpack_into;

// The bits of the cell with the number `inside` in a tile, 0 past the last; none of a malformed content. It takes no lent room.
pub fn unpack_cell(
    content: &[u8],
    rows: u32,
    columns: u32,
    short: bool,
    inside: usize,
) -> Option<u32>
    ensures { result ≡ cell_at (unpacked content.now rows columns short) inside }
{
    let mut none = [0u32; 1];
    unpack_into(content, rows, columns, short, inside, &mut none)
}

// The bits of every cell of a tile, row by row, into `out` where they fit; the answer is whether the content is not malformed. Where it
// is, or where `out` is too short, nothing is written, and what stands behind the cells stays.
pub fn unpack_all(content: &[u8], rows: u32, columns: u32, short: bool, out: &mut [u32]) -> bool
    ensures answer { result ≡ is_whole (unpacked content.now rows columns short) }
    ensures holds { out.new ≡ put out.old 0 (cells_in (unpacked content.now rows columns short)) }
{
    if unpack_cell(content, rows, columns, short, 0).is_none() {
        return false;
    }
    unpack_into(content, rows, columns, short, 0, out);
    true
}

// The same in one pass, for memory that is lent. Where the content is malformed, what the memory then holds is free.
pub fn unpack_lent(content: &[u8], rows: u32, columns: u32, short: bool, memory: &mut [u32]) -> bool
    ensures answer { result ≡ is_whole (unpacked content.now rows columns short) }
    ensures holds { result ≡ true → memory.new ≡ put memory.old 0 (cells_in (unpacked content.now rows columns short)) }
{
    unpack_into(content, rows, columns, short, 0, memory).is_some()
}
