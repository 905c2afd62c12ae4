// The chain of the records behind the header.
ghost use Rattle.std.specs.Prelude.{◌≡◌, ◌<◌, ℕ, List, Bool, length, eqb};
ghost use Rattle.wire.specs.Lists.{select};
ghost use Rattle.record.specs.Record.{Told, type_at};
ghost use Rattle.record.specs.Chain.{header_end, first_record, records, records_end, records_of};

use crate::{Cursor, Step};

// A record that a walk comes to: its file, its type, and its start and length. Its start is in the file, which is said above `length`,
// since below that field the word is the field.
#[derive(Clone, Copy)]
pub struct Seen<'a> {
    pub file: &'a [u8],
    pub kind: u32,
    pub start: usize,
    pub ghost inside: { start < length file.now },
    pub length: usize,
    pub ghost is: { Told file.now kind start length },
}

// A test that a walk over the records asks of each.
pub trait Test {
    // What it decides of the record at a position of a file.
    ghost passes: { Self → List ℕ → ℕ → Bool };

    fn test(&self, seen: Seen<'_>) -> bool
        ensures { result ≡ passes self.now seen.entry.file.now seen.entry.start };
}

// The position behind the header record, where the others start.
pub fn header_end(s: &[u8]) -> usize
    ensures { result ≡ header_end s.now }
{
    16 + wire::u32_at(s, 16) as usize
}

// The start of the first record from a position on that passes a test.
pub fn find<T: Test>(s: &[u8], from: usize, test: &T) -> Option<usize>
    ensures { result ≡ first_record s.now from (T.passes test.now s.now) }
{
    let mut c = Cursor { at: from };
    loop {
        let Step::Record {
            kind,
            start,
            length,
            next,
        } = c.step(s)
        else {
            return None;
        };
        let seen = Seen {
            file: s,
            kind,
            start,
            length,
        };
        if test.test(seen) {
            return Some(start);
        }
        c = next;
    }
}

// Where the records behind the header end: the file's end, or the start of the first bad one.
pub fn records_end(s: &[u8]) -> usize
    ensures { result ≡ records_end s.now }
{
    let mut c = Cursor { at: header_end(s) };
    loop {
        let Step::Record {
            kind: _,
            start: _,
            length: _,
            next,
        } = c.step(s)
        else {
            return c.at;
        };
        c = next;
    }
}

// How many records behind the header pass a test.
pub fn count<T: Test>(s: &[u8], test: &T) -> usize
    ensures { result ≡ length (select (T.passes test.now s.now) (records s.now)) }
{
    let mut c = Cursor { at: header_end(s) };
    let mut found = 0;
    loop {
        let Step::Record {
            kind,
            start,
            length,
            next,
        } = c.step(s)
        else {
            return found;
        };
        let seen = Seen {
            file: s,
            kind,
            start,
            length,
        };
        found += test.test(seen) as usize;
        c = next;
    }
}

// Whether a record is of a type.
#[derive(Clone, Copy)]
struct OfType {
    kind: u32,
}

impl Test for OfType {
    ghost passes = { λ t s x. eqb (type_at s x) t.kind };

    fn test(&self, seen: Seen<'_>) -> bool {
        seen.kind == self.kind
    }
}

// How many records of a type a file has.
pub fn record_count(s: &[u8], kind: u32) -> usize
    ensures { result ≡ length (records_of s.now kind) }
{
    count(s, &OfType { kind })
}
