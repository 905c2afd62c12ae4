// Stage 9: how often a record is listed.
//
// The first record that is not listed once is looked for as the check does. Entries are counted of that one alone.
ghost use Rattle.std.specs.Prelude.{◌≡◌, true, ◌+◌, ◌≤◌, length};
ghost use Rattle.wire.specs.Lists.{one_if, count_below};
ghost use Rattle.header.specs.Element.{longest_string};
ghost use Rattle.check_lists.specs.inner.Search.{list_count, list_fits, list_entry_at, list_entry_of, list_entry_is, list_entry_size};
ghost use Rattle.reasons.specs.Rows.{first_failing};
ghost use Rattle.explain.specs.DirectoryRows.{once_rows, once_from_rows, asked_from};

use bodies::list_directories;
use check_lists::{ListKind, file_space, lists, metadata};
use reasons::{Fault, rows};

// How many entries a list has.
fn entries_in(s: &[u8], list: ListKind) -> u32
    ensures { result ≡ list_count s.now list }
{
    match list {
        ListKind::FreeSpace => list_directories::free_count(s),
        ListKind::Metadata => list_directories::metadata_count(s),
    }
}

// Where its first entry starts.
fn first_in(s: &[u8], list: ListKind) -> usize
    requires { list_fits s.now list ≡ true }
    ensures { result ≡ list_entry_at s.now list 0 }
{
    match list {
        ListKind::FreeSpace => list_directories::file_space_at(s) + 12,
        ListKind::Metadata => list_directories::metadata_at(s) + 12,
    }
}

// The size of the entry at a position.
fn size_in(s: &[u8], list: ListKind, p: usize) -> usize
    ensures is { result ≡ list_entry_size s.now list p }
    ensures near { result ≤ 13 + longest_string }
{
    match list {
        ListKind::FreeSpace => 12,
        ListKind::Metadata => list_directories::metadata_entry_size(s, p),
    }
}

// Whether the entry at a position is that of the record at another.
fn is_entry_of(s: &[u8], list: ListKind, x: usize, p: usize) -> bool
    ensures { result ≡ list_entry_of s.now list x p }
{
    match list {
        ListKind::FreeSpace => file_space::free_entry_of(s, x, p),
        ListKind::Metadata => metadata::metadata_entry_of(s, x, p),
    }
}

// Where the entry behind the one at a position starts.
fn next_in(s: &[u8], list: ListKind, p: usize) -> usize
    requires { p ≤ length s.now + 12 }
    ensures { result ≡ p + list_entry_size s.now list p }
{
    p + size_in(s, list, p)
}

// 1 where the entry at a position is that of the record at another, else 0.
fn once_if(s: &[u8], list: ListKind, x: usize, p: usize) -> u32
    ensures is { result ≡ one_if (list_entry_of s.now list x p) }
    ensures small { result ≤ 1 }
{
    if is_entry_of(s, list, x, p) {
        return 1;
    }
    0
}

// How many entries are those of the record at a position.
fn times_listed(s: &[u8], list: ListKind, x: usize) -> u32
    requires { list_fits s.now list ≡ true }
    ensures { result ≡ count_below (list_count s.now list) (list_entry_is s.now list x) }
{
    let n = entries_in(s, list);
    let mut p = first_in(s, list);
    let mut k: u32 = 0;
    let mut found: u32 = 0;
    while k < n {
        found += once_if(s, list, x, p);
        p = next_in(s, list, p);
        k += 1;
    }
    found
}

// The record at a position, number k of its type, is listed once.
#[tactic(auto, using(reasons::proofs::ReasonLaws::chain), unfolding(crate::specs::DirectoryRows::once_rows))]
fn once_row(s: &[u8], rule: u32, list: ListKind, k: u64, at: usize) -> Result<(), Fault>
    requires { list_fits s.now list ≡ true }
    ensures { result ≡ first_failing (once_rows rule (list_count s.now list) (list_entry_is s.now list) k at) }
{
    let found = times_listed(s, list, at) as u64;
    rows::equal(rule, k, at as u64, found, 1)
}

// The same, but nothing is asked of a record that starts before `from`.
pub(crate) fn once_from(
    s: &[u8],
    rule: u32,
    list: ListKind,
    from: usize,
    k: u64,
    at: usize,
) -> Result<(), Fault>
    requires { list_fits s.now list ≡ true }
    ensures { result ≡ first_failing (once_from_rows from rule (list_count s.now list) (list_entry_is s.now list) k at) }
{
    if at < from {
        return Ok(());
    }
    once_row(s, rule, list, k, at)
}

// Where the first record starts that is not listed once; the file's end where there is none. Those before it need not be asked.
pub(crate) fn asked_from(s: &[u8], list: ListKind) -> usize
    ensures { result ≡ asked_from s.now list }
{
    if let Some(x) = lists::first_unlisted(s, list) {
        return x;
    }
    s.len()
}
