// Stage 9: the records that a list names, each once.
//
// A list is judged a window of the file at a time. A window has 131,072 places, each eight bytes behind the one before it; the
// first window starts at the header's end. A record's length is a multiple of eight, so every record starts at a place. One pass
// over the entries counts at each place how many are those of a record there; one walk over the records looks for the first of
// the list's type whose count is not 1. A count goes no further than 2, so it is a byte. The time grows with the number of
// windows times the number of entries and records: a file of one window, 1 MiB, is judged in two passes.
//
// The counts are a local array of 128 KiB, and the records of a round of `metadata_keys` one of 176 KiB; nothing else is written, and
// no memory is asked for. A check runs in less than 320 KiB of stack, which tests/run tries.
ghost use Rattle.std.specs.Prelude.{◌≡◌, true, ◌+◌, ◌≤◌, ◌<◌, length};
ghost use Rattle.record.specs.Record.{type_at};
ghost use Rattle.record.specs.Chain.{first_record, header_end};
ghost use Rattle.header.specs.Element.{longest_string};
ghost use Rattle.check_lists.specs.inner.Windows.{named_by, slot_of, one_more, noted, tallied, not_once_in, window_counts, window_right};
ghost use Rattle.check_lists.specs.Listed.{listed_once};
ghost use Rattle.check_lists.specs.inner.Search.{listed_kind, list_count, list_fits, list_entry_at, list_entry_of, list_entry_is, list_entry_size, list_right, not_listed_once, first_unlisted};

use crate::{ListKind, file_space, metadata};
use bodies::list_directories;
use record::{chain, frame};

// A window's places, and the bytes that they lie over.
const WINDOW_PLACES: usize = 131072;

const WINDOW_BYTES: usize = 8 * WINDOW_PLACES;

// The type of the records that a list is of.
fn listed_kind(list: ListKind) -> u32
    ensures { result ≡ listed_kind list }
{
    match list {
        ListKind::FreeSpace => record::FREE,
        ListKind::Metadata => record::METADATA,
    }
}

// How many entries it has.
fn list_count(s: &[u8], list: ListKind) -> u32
    ensures { result ≡ list_count s.now list }
{
    match list {
        ListKind::FreeSpace => list_directories::free_count(s),
        ListKind::Metadata => list_directories::metadata_count(s),
    }
}

// They fit its record.
fn list_fits(s: &[u8], list: ListKind) -> bool
    ensures { result ≡ list_fits s.now list }
{
    match list {
        ListKind::FreeSpace => file_space::free_fits(s),
        ListKind::Metadata => metadata::metadata_fits(s),
    }
}

// Where its first entry starts.
fn first_entry(s: &[u8], list: ListKind) -> usize
    requires { list_fits s.now list ≡ true }
    ensures { result ≡ list_entry_at s.now list 0 }
{
    match list {
        ListKind::FreeSpace => list_directories::file_space_at(s) + 12,
        ListKind::Metadata => list_directories::metadata_at(s) + 12,
    }
}

// The size of the entry at a position.
fn entry_size(s: &[u8], list: ListKind, p: usize) -> usize
    ensures is { result ≡ list_entry_size s.now list p }
    ensures near { result ≤ 13 + longest_string }
{
    match list {
        ListKind::FreeSpace => 12,
        ListKind::Metadata => list_directories::metadata_entry_size(s, p),
    }
}

// Whether the entry at a position is that of the record at another.
fn entry_of(s: &[u8], list: ListKind, x: usize, p: usize) -> bool
    ensures { result ≡ list_entry_of s.now list x p }
{
    match list {
        ListKind::FreeSpace => file_space::free_entry_of(s, x, p),
        ListKind::Metadata => metadata::metadata_entry_of(s, x, p),
    }
}

// The start of the record that the entry at a position names.
fn named_by(s: &[u8], list: ListKind, p: usize) -> usize
    ensures { result ≡ named_by s.now list p }
{
    match list {
        ListKind::FreeSpace => wire::u64_at(s, p) as usize,
        ListKind::Metadata => frame::record_of(wire::u64_at(s, p)),
    }
}

// Which of a window's counts the entry at a position adds to: that of the record that it is of, or the number of places,
// which is none.
fn slot_of(s: &[u8], list: ListKind, base: usize, p: usize) -> usize
    ensures { result ≡ slot_of s.now list base p }
{
    let x = named_by(s, list, p);
    if x < base {
        return WINDOW_PLACES;
    }
    let d = x - base;
    if WINDOW_BYTES <= d {
        return WINDOW_PLACES;
    }
    if d % 8 != 0 {
        return WINDOW_PLACES;
    }
    if entry_of(s, list, x, p) {
        return d / 8;
    }
    WINDOW_PLACES
}

// One more, up to 2.
fn one_more(count: u8) -> u8
    ensures { result ≡ one_more count }
{
    if count < 2 {
        return count + 1;
    }
    2
}

// One more at a place; past the end nothing.
fn note(counts: &mut [u8], j: usize)
    ensures { counts.new ≡ noted counts.old j }
{
    if j < counts.len() {
        counts[j] = one_more(counts[j]);
    }
}

// Every entry of the list, added to a window's counts.
fn tally(s: &[u8], list: ListKind, base: usize, counts: &mut [u8])
    requires { list_fits s.now list ≡ true }
    ensures { counts.new ≡ tallied s.now list base counts.old (list_count s.now list) }
{
    let n = list_count(s, list);
    let mut p = first_entry(s, list);
    for k in 0..n {
        let j = slot_of(s, list, base, p);
        note(counts, j);
        p += entry_size(s, list, p);
    }
}

// Whether the record of a type at a position is of the list's type, in the window and not counted once.
fn is_not_once(s: &[u8], list: ListKind, base: usize, counts: &[u8], kind: u32, at: usize) -> bool
    requires { kind ≡ type_at s.now at }
    ensures { result ≡ not_once_in s.now list base counts.now at }
{
    if kind != listed_kind(list) {
        return false;
    }
    if at < base {
        return false;
    }
    let j = (at - base) / 8;
    if j < counts.len() {
        if counts[j] == 1 {
            return false;
        }
        return true;
    }
    false
}

// The test for such a record.
#[derive(Clone, Copy)]
struct NotOnce<'a> {
    list: ListKind,
    base: usize,
    counts: &'a [u8],
}

impl chain::Test for NotOnce<'_> {
    ghost passes = { λ t s x. not_once_in s t.list t.base t.counts.now x };

    fn test(&self, seen: chain::Seen<'_>) -> bool {
        is_not_once(
            seen.file,
            self.list,
            self.base,
            self.counts,
            seen.kind,
            seen.start,
        )
    }
}

// The first one.
fn find_not_once(s: &[u8], list: ListKind, base: usize, counts: &[u8]) -> Option<usize>
    ensures { result ≡ first_record s.now (header_end s.now) (not_once_in s.now list base counts.now) }
{
    let test = NotOnce { list, base, counts };
    chain::find(s, chain::header_end(s), &test)
}

// The first record of the list's type in the window that is not listed once.
fn find_in_window(s: &[u8], list: ListKind, base: usize) -> Option<usize>
    requires { list_fits s.now list ≡ true }
    ensures { result ≡ first_record s.now (header_end s.now) (not_once_in s.now list base (window_counts s.now list base)) }
{
    let mut counts = [0u8; WINDOW_PLACES];
    tally(s, list, base, &mut counts);
    find_not_once(s, list, base, &counts)
}

// The first of the file, which is looked at a window at a time.
fn find_unlisted(s: &[u8], list: ListKind) -> Option<usize>
    requires { list_fits s.now list ≡ true }
    ensures { result ≡ first_record s.now (header_end s.now) (not_listed_once s.now list) }
{
    for base in (chain::header_end(s)..s.len()).step_by(WINDOW_BYTES) {
        if let Some(x) = find_in_window(s, list, base) {
            return Some(x);
        }
    }
    None
}

// The first record of the list's type that is not listed once; nothing where the list does not fit its record.
pub fn first_unlisted(s: &[u8], list: ListKind) -> Option<usize>
    ensures { result ≡ first_unlisted s.now list }
{
    if list_fits(s, list) {
        return find_unlisted(s, list);
    }
    None
}

// Every record of the list's type that starts in the window is listed once.
fn window_right(s: &[u8], list: ListKind, base: usize) -> bool
    requires { list_fits s.now list ≡ true }
    ensures { result ≡ window_right s.now list base }
{
    if let Some(_) = find_in_window(s, list, base) {
        return false;
    }
    true
}

// Every record of the list's type is listed once. The file is judged a window at a time.
fn listed_once(s: &[u8], list: ListKind) -> bool
    requires { list_fits s.now list ≡ true }
    ensures { result ≡ listed_once s.now (listed_kind list) (list_count s.now list) (list_entry_is s.now list) }
{
    for base in (chain::header_end(s)..s.len()).step_by(WINDOW_BYTES) {
        if !window_right(s, list, base) {
            return false;
        }
    }
    true
}

// A list fits its record, and names every record of its type once and nothing else. Where every record is listed once, nothing
// else is just where there are as many entries as records.
pub fn list_right(s: &[u8], list: ListKind) -> bool
    ensures { result ≡ list_right s.now list }
{
    if list_fits(s, list) {
        let records = chain::record_count(s, listed_kind(list));
        if list_count(s, list) as usize != records {
            return false;
        }
        if records == 0 {
            return true;
        }
        return listed_once(s, list);
    }
    false
}
