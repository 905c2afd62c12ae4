// The metadata records in file order, and the look-up of one by its name and record ID.
ghost use Rattle.std.specs.Prelude.{◌≡◌, ◌≤◌, ◌<◌, length};
ghost use Rattle.wire.specs.Bytes.{put};
ghost use Rattle.store.specs.Lookup.{lookup_of};
ghost use Rattle.says.specs.Lists.{items_of, item_numbers, listed, listed_numbers, offered_if, offered_if_to};
ghost use Rattle.says.specs.Metadata.{is_metadata, metadata_records, metadata_says, has_key, metadata_number, read_metadata};

use crate::lists;
use crate::lists::{Listed, Progress};
use answer::Refusal;
use bodies::metadata_record;
use record::{Cursor, Step, chain};

// The nine numbers of the metadata record at x.
fn record_item(s: &[u8], x: usize) -> [u64; 9]
    requires { x < length s.now }
    ensures { result ≡ metadata_says s.now x }
{
    let name_length = wire::u16_off(s, x, 8) as u64;
    let id = metadata_record::record_id(s, x) as u64;
    let kind = metadata_record::data_type(s, x) as u64;
    let at = metadata_record::record_id_start(s, x);
    let n = wire::u32_off(s, at, 5) as usize;
    let description = at + 9 + n;
    let description_length = wire::u16_at(s, description) as u64;
    [
        x as u64,
        (x + 10) as u64,
        name_length,
        id,
        kind,
        (at + 9) as u64,
        n as u64,
        (description + 2) as u64,
        description_length,
    ]
}

// The record at x is given to a list where it is a metadata record.
fn offer_record(s: &[u8], x: usize, p: Progress, numbers: &mut [u64]) -> Progress
    requires { (x < length s.now) × ((p.at ≤ length numbers.old) × ((p.taken ≤ p.seen) × (p.seen < 9223372036854775808))) }
    ensures is { result ≡ offered_if (is_metadata s.now x) 9 (length numbers.old) p }
    ensures numbers { numbers.new ≡ offered_if_to (is_metadata s.now x) numbers.old (metadata_says s.now x) p }
{
    if wire::byte_off(s, x, 4) != record::METADATA {
        return p;
    }
    let item = record_item(s, x);
    lists::offer(p, numbers, &item)
}

// Those of any bytes.
fn list_records(s: &[u8], from: u64, numbers: &mut [u64]) -> Listed
    ensures is { result ≡ items_of 9 from (metadata_records s.now) (length numbers.old) }
    ensures numbers { numbers.new ≡ put numbers.old 0 (item_numbers (metadata_says s.now) 9 from (metadata_records s.now) (length numbers.old)) }
{
    let mut p = Progress {
        skip: from,
        at: 0,
        taken: 0,
        seen: 0,
    };
    let mut c = Cursor {
        at: chain::header_end(s),
    };
    loop {
        let Step::Record {
            kind: _,
            start,
            length: _,
            next,
        } = c.step(s)
        else {
            return Listed::Items {
                taken: p.taken,
                more: p.seen,
            };
        };
        p = offer_record(s, start, p, numbers);
        c = next;
    }
}

// The metadata records of a page, from one on: nine numbers each. Its time is one check, and one pass over the records.
pub fn metadata(file: &[u8], from: u64, numbers: &mut [u64]) -> Listed
    ensures is { result ≡ listed file.now 9 from (metadata_records file.now) (length numbers.old) }
    ensures numbers { numbers.new ≡ put numbers.old 0 (listed_numbers file.now (metadata_says file.now) 9 from (metadata_records file.now) (length numbers.old)) }
{
    match store::check(file) {
        Err(r) => Listed::Refused(r),
        Ok(()) => list_records(file, from, numbers),
    }
}

// Whether the metadata record at x has the name and the record ID.
fn has_key(s: &[u8], x: usize, name: &[u8], id: u32) -> bool
    ensures { result ≡ has_key s.now name.now id x }
{
    if metadata_record::record_id(s, x) == id {
        return wire::same_bytes(metadata_record::metadata_name(s, x), name);
    }
    false
}

// The number of the first that has them, on any bytes.
fn find_keyed(s: &[u8], name: &[u8], id: u32) -> Result<Option<usize>, Refusal>
    ensures { result ≡ lookup_of (metadata_number s.now name.now id) }
{
    let mut c = Cursor {
        at: chain::header_end(s),
    };
    let mut k = 0;
    loop {
        let Step::Record {
            kind,
            start,
            length: _,
            next,
        } = c.step(s)
        else {
            return Ok(None);
        };
        if kind == record::METADATA {
            if has_key(s, start, name, id) {
                return Ok(Some(k));
            }
            k += 1;
        }
        c = next;
    }
}

// The number of the metadata record with a name and an ID, as `metadata` counts them. Its time is one check, and one pass over the records.
pub fn find_metadata(file: &[u8], name: &[u8], id: u32) -> Result<Option<usize>, Refusal>
    ensures { result ≡ read_metadata file.now name.now id }
{
    match store::check(file) {
        Err(r) => Err(r),
        Ok(()) => find_keyed(file, name, id),
    }
}
