// Free records, and the head of any record, put into a lent buffer.
ghost use Rattle.std.specs.Prelude.{◌≡◌, ◌+◌, ◌-◌, ◌≤◌, length};
ghost use Rattle.record.specs.Types.{free_type};
ghost use Rattle.written_records.specs.Pieces.{checksum_for, record_head, record_length};
ghost use Rattle.pieces.specs.Pieces.{free_record};
ghost use Rattle.stores.specs.Stores.{store_count, stopped};
ghost use Rattle.stores.specs.Writes.{one_write, whole_write};
ghost use Rattle.correct.specs.RecordWrites.{rest_writes};

use stores;
use written_records::pieces as parts;

const FREE: u8 = record::FREE as u8;

// The length of a record with a body of n bytes.
pub(crate) fn record_length(n: usize) -> usize
    requires { n ≤ 9223372036854775807 }
    ensures { result ≡ record_length n }
{
    (n + 8 + 4 + 7) / 8 * 8
}

// A record's head.
pub(crate) fn put_head_cut(out: &mut [u8], at: usize, n: usize, kind: u8, k: usize) -> usize
    ensures left { result ≡ k - store_count (one_write at (record_head n kind)) }
    ensures holds { out.new ≡ stopped k (one_write at (record_head n kind)) out.old }
{
    let mut head = [0u8; 8];
    parts::put_head(&mut head, 0, (n % 4294967296) as u32, kind);
    stores::put_cut(out, at, &head, k)
}

// The checksum of a free record of n bytes, which is that of its head.
fn free_sum(n: usize, flag: u32) -> u32
    ensures { result ≡ checksum_for flag (record_head n free_type) }
{
    let mut head = [0u8; 8];
    parts::put_head(&mut head, 0, (n % 4294967296) as u32, FREE);
    parts::checksum_for(flag, &head, 0, 8)
}

// A free record of n bytes.
pub fn put_free_cut(out: &mut [u8], at: usize, n: usize, flag: u32, k: usize) -> usize
    ensures left { result ≡ k - store_count (whole_write (length out.old) at (free_record flag n)) }
    ensures holds { out.new ≡ stopped k (whole_write (length out.old) at (free_record flag n)) out.old }
{
    let zeros = parts::difference(n, 12);
    let room = out.len();
    if room < 12 {
        return k;
    }
    if room - 12 < zeros {
        return k;
    }
    if room - 12 - zeros < at {
        return k;
    }
    let sum = free_sum(n, flag);
    let a = put_head_cut(out, at, n, FREE, k);
    let b = stores::put_zeros_cut(out, at + 8, zeros, a);
    stores::put_u32_cut(out, at + 8 + zeros, sum, b)
}

// What is left over of a free record that is taken in part, as a free record.
pub fn put_rest_cut(out: &mut [u8], at: usize, n: usize, flag: u32, k: usize) -> usize
    ensures left { result ≡ k - store_count (rest_writes (length out.old) flag at n) }
    ensures holds { out.new ≡ stopped k (rest_writes (length out.old) flag at n) out.old }
{
    if n == 0 {
        return k;
    }
    put_free_cut(out, at, n, flag, k)
}
