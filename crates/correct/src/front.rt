// The fields of the header put into a lent buffer, in Req 05's order: opening's first store sets a byte of the opened time that is not
// zero, closing's last store clears it.
ghost use Rattle.std.specs.Prelude.{◌≡◌, ◌-◌, ◌≤◌, length, not, eqb};
ghost use Rattle.std.specs.List.{position};
ghost use Rattle.wire.specs.Bytes.{part, put, zeros};
ghost use Rattle.written_records.specs.Pieces.{checksum_for};
ghost use Rattle.stores.specs.Stores.{store_count, stopped};
ghost use Rattle.correct.specs.FieldWrites.{first_set, set_writes, opened_field_writes, refer_to, closed_field_writes, seal_without, closed_front_writes};

use crc32c;
use stores;
use wire::writing;
use written_records::pieces as parts;

// The number of the lowest byte that is not zero, if one is not.
fn lowest_nonzero(bytes: &[u8]) -> Option<usize>
    ensures { result ≡ position (λ b. not (eqb b 0)) bytes.now }
{
    bytes.iter().position(|b| *b != 0)
}

// The same, as many as there are where all are.
pub fn first_set(bytes: &[u8]) -> usize
    ensures is { result ≡ first_set bytes.now }
    ensures small { result ≤ length bytes.now }
{
    lowest_nonzero(bytes).unwrap_or(bytes.len())
}

// Bytes at a position, byte number p of them first.
fn put_first_cut(out: &mut [u8], at: usize, bytes: &[u8], p: usize, k: usize) -> usize
    requires { (at ≤ 4096) × (p ≤ 4096) }
    ensures left { result ≡ k - store_count (set_writes at bytes.now p) }
    ensures holds { out.new ≡ stopped k (set_writes at bytes.now p) out.old }
{
    let n = parts::difference(bytes.len(), p + 1);
    let a = stores::put_cut(out, at + p, wire::part_of(bytes, p, 1), k);
    let b = stores::put_cut(out, at, wire::part_of(bytes, 0, p), a);
    stores::put_cut(out, at + (p + 1), wire::part_of(bytes, p + 1, n), b)
}

// Opening: the opened time, and the file-space reference zero.
pub fn put_opened_cut(out: &mut [u8], time: u64, k: usize) -> usize
    ensures left { result ≡ k - store_count (opened_field_writes time) }
    ensures holds { out.new ≡ stopped k (opened_field_writes time) out.old }
{
    let mut bytes = [0u8; 8];
    writing::put_u64(&mut bytes, 0, time);
    let p = first_set(&bytes);
    let a = put_first_cut(out, 48, &bytes, p, k);
    stores::put_zeros_cut(out, 56, 8, a)
}

// A reference to the record that starts at n, if there is one.
pub fn refer_to_cut(out: &mut [u8], at: usize, there: bool, n: u32, k: usize) -> usize
    ensures left { result ≡ k - store_count (refer_to at there n) }
    ensures holds { out.new ≡ stopped k (refer_to at there n) out.old }
{
    if there {
        return stores::put_u64_cut(out, at, n as u64 + 8, k);
    }
    k
}

// Closing: the time modified, the file-space reference, and the opened time zero but for byte number p.
fn put_closed_cut(out: &mut [u8], time: u64, there: bool, n: u32, p: usize, k: usize) -> usize
    requires { p ≤ 255 }
    ensures left { result ≡ k - store_count (closed_field_writes time there n p) }
    ensures holds { out.new ≡ stopped k (closed_field_writes time there n p) out.old }
{
    let a = stores::put_u64_cut(out, 40, time, k);
    let b = refer_to_cut(out, 56, there, n, a);
    let c = stores::put_zeros_cut(out, 48, p, b);
    stores::put_zeros_cut(out, 48 + (p + 1), parts::difference(7, p), c)
}

// The checksum of a header that ends at `end`, the opened time read as zero.
fn sum_without(out: &[u8], end: usize, flag: u32) -> u32
    ensures { result ≡ checksum_for flag (part (put out.now 48 (zeros 8)) 16 (end - 20)) }
{
    if flag == 1 {
        return crc32c::crc_without(out, 16, parts::difference(end, 20), 48, 56);
    }
    0
}

// It, put where the header's checksum stands.
fn seal_without_cut(out: &mut [u8], end: usize, flag: u32, k: usize) -> usize
    ensures left { result ≡ k - store_count (seal_without flag end out.old) }
    ensures holds { out.new ≡ stopped k (seal_without flag end out.old) out.old }
{
    let sum = sum_without(out, end, flag);
    stores::put_u32_cut(out, 16 + parts::difference(end, 20), sum, k)
}

// Closing's stores to the header: those fields, its checksum, and byte p of the opened time last.
pub fn put_closing_cut(
    out: &mut [u8],
    flag: u32,
    end: usize,
    time: u64,
    there: bool,
    n: u32,
    p: u8,
    k: usize,
) -> usize
    ensures left { result ≡ k - store_count (closed_front_writes flag end time there n p out.old) }
    ensures holds { out.new ≡ stopped k (closed_front_writes flag end time there n p out.old) out.old }
{
    let a = put_closed_cut(out, time, there, n, p as usize, k);
    let b = seal_without_cut(out, end, flag, a);
    stores::put_zeros_cut(out, 48 + p as usize, 1, b)
}
