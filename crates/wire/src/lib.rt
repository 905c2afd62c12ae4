// Little-endian numbers in bytes. Reading is total: what does not lie whole in the slice reads as nothing, or as 0.
#![tactic(auto)]

pub mod big;
pub mod writing;

ghost use Rattle.std.specs.Prelude.{◌≡◌, ◌==◌, not, ◌+◌, ◌<◌, length, get_or, position, IfSome};
ghost use Rattle.std.specs.List.{zip};
ghost use Rattle.wire.specs.Bytes.{byte_at, part, number, number_at, part_at, same_bytes};
ghost use Rattle.wire.specs.Big.{big_from, big_at};
ghost use Rattle.wire.specs.Compare.{compared};

// The largest Integer (G Table 4): a four-byte number above it is a negative one.
pub const LARGEST_INTEGER: u32 = 2147483647;

// The byte at a position, 0 past the end.
pub fn byte_at(s: &[u8], at: usize) -> u32
    ensures is { result ≡ byte_at s.now at }
    ensures small { result < 256 }
{
    if at < s.len() { s[at] as u32 } else { 0 }
}

// The N bytes at a position, as both orders read them; zeros where they do not lie whole in the slice.
pub(crate) fn bytes_at<const N: usize>(s: &[u8], at: usize) -> [u8; N]
    ensures lowest_first { number result ≡ number_at N s.now at }
    ensures highest_first { big_from 0 result ≡ big_at N s.now at }
{
    match part_of(s, at, N).first_chunk() {
        Some(bytes) => *bytes,
        None => [0; N],
    }
}

// The number of two bytes at a position.
pub fn u16_at(s: &[u8], at: usize) -> u32
    ensures is { result ≡ number_at 2 s.now at }
    ensures small { result < 65536 }
{
    u32::from(u16::from_le_bytes(bytes_at(s, at)))
}

// The number of four bytes at a position.
pub fn u32_at(s: &[u8], at: usize) -> u32
    ensures { result ≡ number_at 4 s.now at }
{
    u32::from_le_bytes(bytes_at(s, at))
}

// The number of eight bytes at a position.
pub fn u64_at(s: &[u8], at: usize) -> u64
    ensures { result ≡ number_at 8 s.now at }
{
    u64::from_le_bytes(bytes_at(s, at))
}

// The same reads, d behind a position, however large the sum.
pub fn byte_off(s: &[u8], at: usize, d: usize) -> u32
    ensures is { result ≡ byte_at s.now (at + d) }
    ensures small { result < 256 }
{
    byte_at(s, at.saturating_add(d))
}

pub fn u16_off(s: &[u8], at: usize, d: usize) -> u32
    ensures is { result ≡ number_at 2 s.now (at + d) }
    ensures small { result < 65536 }
{
    u16_at(s, at.saturating_add(d))
}

pub fn u32_off(s: &[u8], at: usize, d: usize) -> u32
    ensures { result ≡ number_at 4 s.now (at + d) }
{
    u32_at(s, at.saturating_add(d))
}

pub fn u64_off(s: &[u8], at: usize, d: usize) -> u64
    ensures { result ≡ number_at 8 s.now (at + d) }
{
    u64_at(s, at.saturating_add(d))
}

// A number of a slice of numbers, 0 past the end.
pub fn number_in(numbers: &[u32], i: usize) -> u32
    ensures { result ≡ get_or numbers.now i 0 }
{
    numbers.get(i).copied().unwrap_or(0)
}

// The n bytes from a position on, as that part of the slice itself; the empty part where they do not lie whole in it.
pub fn part_of(s: &[u8], at: usize, n: usize) -> &[u8]
    ensures holds { result.now ≡ part s.now at n }
    ensures block { result.ref_ptr.0 ≡ s.entry.ref_ptr.0 }
    ensures offset { result.ref_ptr.1 ≡ s.entry.ref_ptr.1 + part_at s.now at n }
{
    if s.len() < n {
        return &s[..0];
    }
    if s.len() - n < at {
        return &s[..0];
    }
    let end = at + n;
    &s[at..end]
}

// What a comparison tells: whether the bytes are the same, and how many pairs of them it read.
// No Result: the pairs count where the bytes are the same and where they differ, so each arm would say them.
#[derive(Clone, Copy)]
pub struct Compared {
    pub equal: bool,
    pub pairs: usize,
}

// The first place where two slices differ, as far as both go.
fn first_other(a: &[u8], b: &[u8]) -> Option<usize>
    ensures is { result ≡ position (λ p. not (p.0 == p.1)) (zip a.now b.now) }
    ensures inside { IfSome result (λ i. i < length a.now) }
{
    a.iter().zip(b).position(|(x, y)| x != y)
}

// Compares two slices, pair by pair, up to the first that differs; none where the lengths differ.
pub fn compare(a: &[u8], b: &[u8]) -> Compared
    ensures { result ≡ compared a.now b.now }
{
    if a.len() != b.len() {
        return Compared {
            equal: false,
            pairs: 0,
        };
    }
    match first_other(a, b) {
        Some(i) => Compared {
            equal: false,
            pairs: i + 1,
        },
        None => Compared {
            equal: true,
            pairs: a.len(),
        },
    }
}

// Whether two slices hold the same bytes. Not `==`: each comparison of names goes through `compare`, which counts what it reads.
pub fn same_bytes(a: &[u8], b: &[u8]) -> bool
    ensures { result ≡ same_bytes a.now b.now }
{
    compare(a, b).equal
}
