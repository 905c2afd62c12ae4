// CRC32C, eight bytes at a time: the bytes and the state are one number, and each few bits of it have a table of what they
// do. The bytes behind the last eight are taken one by one.
#![tactic(auto)]

mod tables;

ghost use Rattle.std.specs.Prelude.{◌≡◌, ◌/◌};
ghost use Rattle.std.specs.Int.Bits.{bit_xor};
ghost use Rattle.crc32c.specs.Crc.{crc_of, crc_part, crc_without};
ghost use Rattle.crc32c.specs.inner.Ahead.{over_bits, byte_without};

// The 22 lowest bits of 64.
fn lower(y: u64) -> u32
    ensures { bit_xor result (over_bits 42 (y / 16 / 64 / 64 / 64)) ≡ over_bits 64 y }
{
    let y1 = y / 16;
    let y2 = y1 / 64;
    let y3 = y2 / 64;
    let a = tables::after_64(y % 16);
    let b = tables::after_sixes(10, y1 % 64);
    let c = tables::after_sixes(9, y2 % 64);
    let d = tables::after_sixes(8, y3 % 64);
    a ^ (b ^ (c ^ d))
}

// The 18 lowest bits of 42.
fn middle(y: u64) -> u32
    ensures { bit_xor result (over_bits 24 (y / 64 / 64 / 64)) ≡ over_bits 42 y }
{
    let y1 = y / 64;
    let y2 = y1 / 64;
    let a = tables::after_sixes(7, y % 64);
    let b = tables::after_sixes(6, y1 % 64);
    let c = tables::after_sixes(5, y2 % 64);
    a ^ (b ^ c)
}

// The 18 lowest bits of 24.
fn upper(y: u64) -> u32
    ensures { bit_xor result (over_bits 6 (y / 64 / 64 / 64)) ≡ over_bits 24 y }
{
    let y1 = y / 64;
    let y2 = y1 / 64;
    let a = tables::after_sixes(4, y % 64);
    let b = tables::after_sixes(3, y1 % 64);
    let c = tables::after_sixes(2, y2 % 64);
    a ^ (b ^ c)
}

// Eight bytes, the state among them.
fn eight(y: u64) -> u32
    ensures { result ≡ over_bits 64 y }
{
    let y4 = y / 16 / 64 / 64 / 64;
    let y7 = y4 / 64 / 64 / 64;
    let y10 = y7 / 64 / 64 / 64;
    (lower(y) ^ (middle(y4) ^ upper(y7))) ^ tables::after_sixes(1, y10 % 64)
}

// One byte, the state in it and above it.
fn one(x: u32) -> u32
    ensures { result ≡ over_bits 8 x }
{
    let x1 = x / 4;
    (tables::after_8((x % 4) as u64) ^ (x1 / 64)) ^ tables::after_sixes(1, (x1 % 64) as u64)
}

// The CRC32C of a slice.
pub fn crc_of(s: &[u8]) -> u32
    ensures { result ≡ crc_of s.now }
{
    let (eights, rest) = s.as_chunks::<8>();
    let mut c: u32 = 0xFFFF_FFFF;
    for bytes in eights {
        c = eight(u64::from(c) ^ u64::from_le_bytes(*bytes));
    }
    for b in rest {
        c = one(c ^ u32::from(*b));
    }
    c ^ 0xFFFF_FFFF
}

// The CRC32C of the n bytes from a position on; that of no byte, 0, where they do not lie whole in the slice.
pub fn crc_part(s: &[u8], at: usize, n: usize) -> u32
    ensures { result ≡ crc_part s.now at n }
{
    crc_of(wire::part_of(s, at, n))
}

// The byte at a position, read as 0 from `from` up to `to`, where these lie whole in the slice.
fn byte_without(s: &[u8], from: usize, to: usize, i: usize) -> u32
    ensures { result ≡ byte_without s.now from to i }
{
    if s.len() < to {
        return wire::byte_at(s, i);
    }
    if i < from {
        return wire::byte_at(s, i);
    }
    if i < to {
        return 0;
    }
    wire::byte_at(s, i)
}

// The CRC32C of the n bytes from a position on, those from `from` up to `to` read as 0, where these lie whole in the slice.
pub fn crc_without(s: &[u8], at: usize, n: usize, from: usize, to: usize) -> u32
    ensures { result ≡ crc_without s.now at n from to }
{
    if s.len() < n {
        return 0;
    }
    if s.len() - n < at {
        return 0;
    }
    let mut c: u32 = 0xFFFF_FFFF;
    for i in 0..n {
        c = one(c ^ byte_without(s, from, to, at + i));
    }
    c ^ 0xFFFF_FFFF
}
