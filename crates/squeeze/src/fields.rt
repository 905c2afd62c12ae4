// The references of a directory, put anew while it moves down in a lent buffer.
ghost use Rattle.std.specs.Prelude.{◌≡◌, ◌⊎◌, ◌-◌, ◌≤◌};
ghost use Rattle.pieces.specs.Edits.{reference_bytes};
ghost use Rattle.stores.specs.Stores.{store_count, stopped};
ghost use Rattle.stores.specs.Writes.{one_write};
ghost use Rattle.plans.specs.Moved.{named_in, Ascend};
ghost use Rattle.squeeze.specs.Fields.{reference_read, field_size, fields_put, unsealed, FieldsFit};

use crate::{finding, moving};
use bodies::list_directories;
use stores;

// The content's position that a reference of w bytes gives.
fn reference_read(s: &[u8], at: usize, w: usize) -> u64
    ensures { result ≡ reference_read w s.now at }
{
    if w == 8 {
        return wire::u64_at(s, at);
    }
    wire::u32_at(s, at) as u64 * 8
}

// From a reference to the next one: behind a string, or its own bytes.
fn field_size(s: &[u8], at: usize, strings: bool, w: usize) -> usize
    ensures { result ≡ field_size s.now strings w at }
{
    if strings {
        return list_directories::metadata_entry_size(s, at);
    }
    w
}

// A reference to a content's position.
fn put_reference_cut(out: &mut [u8], at: usize, w: usize, content: u64, k: usize) -> usize
    requires { (w ≡ 8) ⊎ (w ≡ 4) }
    ensures left { result ≡ k - store_count (one_write at (reference_bytes w content)) }
    ensures holds { out.new ≡ stopped k (one_write at (reference_bytes w content)) out.old }
{
    if w == 8 {
        return stores::put_u64_cut(out, at, content, k);
    }
    stores::put_u32_cut(out, at, (content / 8 % 4294967296) as u32, k)
}

// The n bytes from a position on, all but the checksum, put at or below it, with each of the references in them put anew. The first stands
// `first` bytes behind their start. What is read lies at or above what is written.
pub(crate) fn put_fields_cut(
    out: &mut [u8],
    to: usize,
    from: usize,
    n: usize,
    first: usize,
    strings: bool,
    w: usize,
    count: usize,
    plan: &[u64],
    k: usize,
) -> usize
    requires { (to ≤ from) × (Ascend plan.now × FieldsFit out.old from n first strings w count) }
    ensures left { result ≡ k - store_count (one_write to (unsealed (fields_put (named_in plan.now) out.old from n first strings w count) n)) }
    ensures holds { out.new ≡ stopped k (one_write to (unsealed (fields_put (named_in plan.now) out.old from n first strings w count) n)) out.old }
{
    let mut left = k;
    let mut p = 0;
    let mut q = first;
    let mut i = 0;
    while i < count {
        let size = field_size(out, from + q, strings, w);
        let content = finding::named_in(plan, reference_read(out, from + q, w));
        left = moving::move_down_cut(out, to + p, from + p, q - p, left);
        left = put_reference_cut(out, to + q, w, content, left);
        p = q + w;
        q += size;
        i += 1;
    }
    moving::move_down_cut(out, to + p, from + p, n - 4 - p, left)
}
