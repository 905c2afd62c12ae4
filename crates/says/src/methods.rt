// The names of the compression methods, by index.
ghost use Rattle.std.specs.Prelude.{◌≡◌, [], ◌∷◌, ◌+◌, ◌≤◌, length};
ghost use Rattle.wire.specs.Bytes.{put, u16_at};
ghost use Rattle.header.specs.Element.{longest_entry};
ghost use Rattle.says.specs.Lists.{items_of, item_numbers, listed, listed_numbers};
ghost use Rattle.says.specs.Methods.{method_at, next_name, method_says, method_indexes};

use crate::lists;
use crate::lists::{Listed, Progress};
use header::{entries, fields, tail};

// Where the first name stands.
fn first_name(s: &[u8]) -> usize
    ensures is { result ≡ method_at s.now 0 }
    ensures near { result ≤ length s.now + longest_entry + 4 }
{
    entries::entry_start(s, fields::element_count(s) as usize) + 4
}

// Where the name behind the one at a position stands; the position itself where it is past the start of the header's last four bytes.
fn next_name(s: &[u8], at: usize) -> usize
    requires { at ≤ length s.now + longest_entry + 4 }
    ensures is { result ≡ next_name s.now at }
    ensures near { result ≤ length s.now + longest_entry + 4 }
{
    if fields::header_limit(s) < at {
        return at;
    }
    at + entries::string_size(s, at)
}

// The place and the length of the name at a position.
fn name_item(s: &[u8], at: usize) -> [u64; 2]
    requires { at ≤ length s.now + longest_entry + 4 }
    ensures { result ≡ (at + 2) ∷ u16_at s.now at ∷ [] }
{
    [(at + 2) as u64, wire::u16_at(s, at) as u64]
}

// Those of any bytes.
fn list_names(s: &[u8], from: u64, numbers: &mut [u64]) -> Listed
    ensures is { result ≡ items_of 2 from (method_indexes s.now) (length numbers.old) }
    ensures numbers { numbers.new ≡ put numbers.old 0 (item_numbers (method_says s.now) 2 from (method_indexes s.now) (length numbers.old)) }
{
    let n = tail::method_count(s);
    let mut p = Progress {
        skip: from,
        at: 0,
        taken: 0,
        seen: 0,
    };
    let mut at = first_name(s);
    let mut k = 0;
    while k < n {
        let item = name_item(s, at);
        p = lists::offer(p, numbers, &item);
        at = next_name(s, at);
        k += 1;
    }
    Listed::Items {
        taken: p.taken,
        more: p.seen,
    }
}

// The names of the methods of a page, from one on: two numbers each, place and length. Its time is one check, and a step for each method.
pub fn methods(file: &[u8], from: u64, numbers: &mut [u64]) -> Listed
    ensures is { result ≡ listed file.now 2 from (method_indexes file.now) (length numbers.old) }
    ensures numbers { numbers.new ≡ put numbers.old 0 (listed_numbers file.now (method_says file.now) 2 from (method_indexes file.now) (length numbers.old)) }
{
    match store::check(file) {
        Err(r) => Listed::Refused(r),
        Ok(()) => list_names(file, from, numbers),
    }
}
