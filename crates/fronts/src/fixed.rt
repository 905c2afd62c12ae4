// The fields of a header at fixed places, put into a lent buffer.
ghost use Rattle.std.specs.Prelude.{◌≡◌, min, ◌+◌, ◌≤◌, length, get_or};
ghost use Rattle.wire.specs.Bytes.{put};
ghost use Rattle.check_header.specs.Ceilings.{most_file_bytes};
ghost use Rattle.fronts.specs.Front.{block_bytes};
ghost use Rattle.fronts.specs.Writing.{sides_bytes, fixed_bytes};

use crate::entries;
use crate::sides::Sides;
use wire::writing;

// The identification block: `gvrs raster`, a zero byte, version 1.4, two reserved bytes.
pub(crate) fn put_mark(out: &mut [u8])
    ensures { out.new ≡ put out.old 0 block_bytes }
{
    writing::put_bytes(out, 0, b"gvrs raster\0\x01\x04\0\0");
}

// The four sides.
fn put_sides(out: &mut [u8], at: usize, s: Sides)
    requires { at + 16 ≤ length out.old }
    ensures { out.new ≡ put out.old at (sides_bytes s.rows s.columns s.tile_rows s.tile_columns) }
{
    writing::put_u32(out, at, s.rows);
    writing::put_u32(out, at + 4, s.columns);
    writing::put_u32(out, at + 8, s.tile_rows);
    writing::put_u32(out, at + 12, s.tile_columns);
}

// From the UUID to the number of elements; all else is zero.
fn put_fixed(out: &mut [u8], at: usize, uuid: &[u8], sides: Sides, flag: u8, count: u32)
    requires { (length uuid.now ≡ 16) × (at + 260 ≤ length out.old) }
    ensures { out.new ≡ put out.old at (fixed_bytes uuid.now sides.rows sides.columns sides.tile_rows sides.tile_columns flag count) }
{
    writing::put_bytes(out, at, uuid);
    writing::put_zeros(out, at + 16, 64);
    put_sides(out, at + 80, sides);
    writing::put_zeros(out, at + 96, 8);
    writing::put_byte(out, at + 104, flag);
    writing::put_zeros(out, at + 105, 151);
    writing::put_u32(out, at + 256, count);
}

// The same at their place, of a page's numbers and of n elements.
pub(crate) fn put_numbers(out: &mut [u8], page: &[u32], uuid: &[u8], n: usize)
    requires { (length uuid.now ≡ 16) × ((n ≤ most_file_bytes) × (284 ≤ length out.old)) }
    ensures { out.new ≡ put out.old 24 (fixed_bytes uuid.now (get_or page.now 0 0) (get_or page.now 1 0) (get_or page.now 2 0) (get_or page.now 3 0) (min (get_or page.now 4 0) 255) n) }
{
    let flag = entries::code_of(wire::number_in(page, 4));
    put_fixed(out, 24, uuid, Sides::of(page), flag, n as u32);
}
