// Numbers written as M32 codes into a lent buffer. What does not fit whole is not written.
ghost use Rattle.std.specs.Prelude.{◌≡◌, ◌∷◌, ◌≤◌, length};
ghost use Rattle.wire.specs.Bytes.{put};
ghost use Rattle.m32.specs.M32.{absolute, continued, sevens, wide, code_of, codes};

use crate::base;

// The magnitude of a number.
fn absolute(x: u32) -> u32
    ensures { result ≡ absolute x }
{
    if x <= 2147483647 {
        return x;
    }
    4294967295 - x + 1
}

// How many bytes of a magnitude are followed by another.
fn continued(m: u32) -> u32
    ensures is { result ≡ continued m }
    ensures few { result ≤ 4 }
{
    if m < 255 {
        return 0;
    }
    if m < 16639 {
        return 1;
    }
    if m < 2113791 {
        return 2;
    }
    if m < 270549247 {
        return 3;
    }
    4
}

// The length of a number's code, of small numbers first.
pub fn length_of(x: u32) -> usize
    ensures is { result ≡ length (code_of x) }
    ensures few { result ≤ 6 }
{
    let m = absolute(x);
    if m < 255 {
        if m <= 126 {
            return 1;
        }
        return 2;
    }
    if m == 2147483648 {
        return 1;
    }
    continued(m) as usize + 2
}

// The k lowest groups of seven bits of v, high bits first, each with its top bit set.
fn put_sevens(out: &mut [u8], at: usize, k: usize, v: u32)
    ensures { out.new ≡ put out.old at (sevens k v) }
{
    if out.len() < k {
        return;
    }
    if out.len() - k < at {
        return;
    }
    let mut w = v;
    for i in (0..k).rev() {
        out[at + i] = (128 + w % 128) as u8;
        w /= 128;
    }
}

// A first byte and the bytes of a magnitude.
fn put_wide(out: &mut [u8], at: usize, first: u8, m: u32)
    requires { 127 ≤ m }
    ensures { out.new ≡ put out.old at (first ∷ wide m) }
{
    let digits = continued(m);
    let v = m - base(digits);
    let k = digits as usize;
    if out.len() < k + 2 {
        return;
    }
    if out.len() - (k + 2) < at {
        return;
    }
    wire::writing::put_byte(out, at, first);
    put_sevens(out, at + 1, k, v / 128);
    wire::writing::put_byte(out, at + 1 + k, (v % 128) as u8);
}

// A number's code.
pub fn put_code(out: &mut [u8], at: usize, x: u32)
    ensures { out.new ≡ put out.old at (code_of x) }
{
    let m = absolute(x);
    if m <= 126 {
        wire::writing::put_byte(out, at, (x % 256) as u8);
        return;
    }
    if m == 2147483648 {
        wire::writing::put_byte(out, at, 128);
        return;
    }
    if x <= 2147483647 {
        put_wide(out, at, 127, m);
        return;
    }
    put_wide(out, at, 129, m);
}

// The length of the codes of some numbers.
pub fn codes_length(xs: &[u32]) -> usize
    ensures { result ≡ length (codes xs.now) }
{
    let mut n = 0;
    for x in xs {
        n += length_of(*x);
    }
    n
}

// Their codes, one behind the other, where they fit.
fn put_codes(xs: &[u32], out: &mut [u8])
    requires { length (codes xs.now) ≤ length out.old }
    ensures { out.new ≡ put out.old 0 (codes xs.now) }
{
    let mut at = 0;
    for x in xs {
        put_code(out, at, *x);
        at += length_of(*x);
    }
}

// Writes the codes of some numbers where they fit; the answer is their length.
pub fn write(xs: &[u32], out: &mut [u8]) -> usize
    ensures answer { result ≡ length (codes xs.now) }
    ensures holds { out.new ≡ put out.old 0 (codes xs.now) }
{
    let n = codes_length(xs);
    if out.len() < n {
        return n;
    }
    put_codes(xs, out);
    n
}
