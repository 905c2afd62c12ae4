// Numbers with their highest byte first, read and put. Both are total: what does not lie whole in the slice reads as 0, and what does
// not fit whole is not written.
ghost use Rattle.std.specs.Prelude.{◌≡◌, ◌<◌};
ghost use Rattle.wire.specs.Bytes.{put};
ghost use Rattle.wire.specs.Big.{big_at, big_of};

use crate::{bytes_at, writing};

// The number of two bytes at a position.
pub fn u16_at(s: &[u8], at: usize) -> u32
    ensures is { result ≡ big_at 2 s.now at }
    ensures small { result < 65536 }
{
    u32::from(u16::from_be_bytes(bytes_at(s, at)))
}

// The number of four bytes at a position.
pub fn u32_at(s: &[u8], at: usize) -> u32
    ensures { result ≡ big_at 4 s.now at }
{
    u32::from_be_bytes(bytes_at(s, at))
}

// The two lowest bytes of a number.
pub fn put_u16(out: &mut [u8], at: usize, v: u32)
    ensures { out.new ≡ put out.old at (big_of 2 v) }
{
    writing::put_bytes(out, at, &((v % 65536) as u16).to_be_bytes());
}

// The four bytes of a number.
pub fn put_u32(out: &mut [u8], at: usize, v: u32)
    ensures { out.new ≡ put out.old at (big_of 4 v) }
{
    writing::put_bytes(out, at, &v.to_be_bytes());
}
