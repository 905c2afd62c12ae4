// Bytes put into a lent buffer, at most k of them (Req 05). What is left of k comes back, and is what the next writer has. Writing is
// total: what does not fit whole is not written, and is counted.
#![tactic(auto)]

ghost use Rattle.std.specs.Prelude.{◌≡◌, ◌-◌};
ghost use Rattle.wire.specs.Bytes.{bytes_of, zeros};
ghost use Rattle.stores.specs.Stores.{store_count, first_bytes, stopped};
ghost use Rattle.stores.specs.Writes.{one_write, seal_write};

use wire::writing;
use written_records::pieces;

// The first k bytes of a slice, all of a shorter one.
fn first_of(s: &[u8], k: usize) -> &[u8]
    ensures { result.now ≡ first_bytes k s.now }
{
    let n = s.len();
    if n < k {
        return wire::part_of(s, 0, n);
    }
    wire::part_of(s, 0, k)
}

// The bytes of a slice.
pub fn put_cut(out: &mut [u8], at: usize, src: &[u8], k: usize) -> usize
    ensures left { result ≡ k - store_count (one_write at src.now) }
    ensures holds { out.new ≡ stopped k (one_write at src.now) out.old }
{
    let n = src.len();
    writing::put_bytes(out, at, first_of(src, k));
    pieces::difference(k, n)
}

// Zeros.
pub fn put_zeros_cut(out: &mut [u8], at: usize, n: usize, k: usize) -> usize
    ensures left { result ≡ k - store_count (one_write at (zeros n)) }
    ensures holds { out.new ≡ stopped k (one_write at (zeros n)) out.old }
{
    if k < n {
        writing::put_zeros(out, at, k);
        return 0;
    }
    writing::put_zeros(out, at, n);
    k - n
}

// The four bytes of a number.
pub fn put_u32_cut(out: &mut [u8], at: usize, v: u32, k: usize) -> usize
    ensures left { result ≡ k - store_count (one_write at (bytes_of 4 v)) }
    ensures holds { out.new ≡ stopped k (one_write at (bytes_of 4 v)) out.old }
{
    let mut bytes = [0u8; 4];
    writing::put_u32(&mut bytes, 0, v);
    put_cut(out, at, &bytes, k)
}

// The eight bytes of a number.
pub fn put_u64_cut(out: &mut [u8], at: usize, v: u64, k: usize) -> usize
    ensures left { result ≡ k - store_count (one_write at (bytes_of 8 v)) }
    ensures holds { out.new ≡ stopped k (one_write at (bytes_of 8 v)) out.old }
{
    let mut bytes = [0u8; 8];
    writing::put_u64(&mut bytes, 0, v);
    put_cut(out, at, &bytes, k)
}

// Of the n bytes from a position on, the last four made the checksum of those before them, over the buffer's own bytes.
pub fn seal_cut(out: &mut [u8], at: usize, n: usize, flag: u32, k: usize) -> usize
    ensures left { result ≡ k - store_count (seal_write flag at n out.old) }
    ensures holds { out.new ≡ stopped k (seal_write flag at n out.old) out.old }
{
    let m = pieces::difference(n, 4);
    let room = out.len();
    if room < m {
        return pieces::difference(k, 4);
    }
    if room - m < at {
        return pieces::difference(k, 4);
    }
    let sum = pieces::checksum_for(flag, out, at, m);
    put_u32_cut(out, at + m, sum, k)
}
