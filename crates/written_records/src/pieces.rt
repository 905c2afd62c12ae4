// The pieces of a record, put into a lent buffer. What does not fit whole is not written.
ghost use Rattle.std.specs.Prelude.{◌≡◌, ◌-◌};
ghost use Rattle.wire.specs.Pick.{round_up};
ghost use Rattle.wire.specs.Bytes.{part, put};
ghost use Rattle.written_records.specs.Pieces.{checksum_for, record_head, section, sealed, closed_at};

use crc32c;
use wire::writing;

// The difference, 0 where b is more.
pub fn difference(a: usize, b: usize) -> usize
    ensures { result ≡ a - b }
{
    if a < b {
        return 0;
    }
    a - b
}

// A record's head: its length, its type and three reserved bytes. The type is the byte that is written.
pub fn put_head(out: &mut [u8], at: usize, n: u32, kind: u8)
    ensures { out.new ≡ put out.old at (record_head n kind) }
{
    let room = out.len();
    if room < 8 {
        return;
    }
    if room - 8 < at {
        return;
    }
    writing::put_u32(out, at, n);
    writing::put_byte(out, at + 4, kind);
    writing::put_zeros(out, at + 5, 3);
}

// The checksum of the n bytes from a position on, as the flag says.
pub fn checksum_for(flag: u32, s: &[u8], at: usize, n: usize) -> u32
    ensures { result ≡ checksum_for flag (part s.now at n) }
{
    if flag == 1 {
        return crc32c::crc_part(s, at, n);
    }
    0
}

// Of the n bytes from a position on, the last four made the checksum of those before them.
pub fn seal(out: &mut [u8], at: usize, n: usize, flag: u32)
    ensures { out.new ≡ sealed flag out.old at n }
{
    let m = difference(n, 4);
    let room = out.len();
    if room < m {
        return;
    }
    if room - m < at {
        return;
    }
    let sum = checksum_for(flag, out, at, m);
    writing::put_u32(out, at + m, sum);
}

// A record of n bytes whose body ends at `end`: its padding and its checksum, over the buffer's own bytes.
pub fn close(out: &mut [u8], at: usize, end: usize, n: usize, flag: u32)
    ensures { out.new ≡ closed_at flag out.old at end n }
{
    let m = difference(n, 4);
    let room = out.len();
    if room < m {
        return;
    }
    if room - m < at {
        return;
    }
    writing::put_zeros(out, end, difference(at + m, end));
    seal(out, at, n, flag);
}

// How many bytes bring n to a multiple of 4.
pub fn padding(n: usize) -> usize
    ensures is { result ≡ round_up 4 n - n }
{
    (4 - n % 4) % 4
}

// An element's section of a tile record: its length, its bytes, and the padding.
pub fn put_section(out: &mut [u8], at: usize, bytes: &[u8])
    ensures { out.new ≡ put out.old at (section bytes.now) }
{
    let n = bytes.len();
    let pad = padding(n);
    let room = out.len();
    if room < n {
        return;
    }
    if room - n < 4 + pad {
        return;
    }
    if room - n - (4 + pad) < at {
        return;
    }
    writing::put_u32(out, at, (n % 4294967296) as u32);
    writing::put_bytes(out, at + 4, bytes);
    writing::put_zeros(out, at + 4 + n, pad);
}
