// Records freed, and runs of free records joined, in one walk.
ghost use Rattle.std.specs.Prelude.{◌≡◌, false, ◌-◌, length};
ghost use Rattle.record.specs.Record.{type_at};
ghost use Rattle.stores.specs.Stores.{store_count, stopped};
ghost use Rattle.correct.specs.Front.{page_in};
ghost use Rattle.correct.specs.RecordWrites.{free_run_writes};
ghost use Rattle.edit_walks.specs.Walks.{wanted_by, freed_from};
ghost use Rattle.edit_walks.specs.Runs.{loose_by, due_by};

use crate::Wanted;
use correct::records;
use record::{Cursor, Step};
use written_records::pieces as parts;

// Whether the record of a type at a position is a tile record with an index.
pub(crate) fn is_tile(s: &[u8], i: u32, kind: u32, at: usize) -> bool
    requires { kind ≡ type_at s.now at }
    ensures { result ≡ wanted_by s.now (Wanted.Tile i) at }
{
    if kind != record::TILE {
        return false;
    }
    if wire::u32_off(s, at, 8) != i {
        return false;
    }
    true
}

// Whether opening frees it.
fn is_unwanted(s: &[u8], full: bool, kind: u32, at: usize) -> bool
    requires { kind ≡ type_at s.now at }
    ensures { result ≡ wanted_by s.now (Wanted.Unwanted full) at }
{
    if kind == record::FILE_SPACE_DIRECTORY {
        return true;
    }
    if full {
        return false;
    }
    if kind != record::TILE_DIRECTORY {
        return false;
    }
    true
}

// Whether it is freed.
pub(crate) fn is_wanted(s: &[u8], want: Wanted, kind: u32, at: usize) -> bool
    requires { kind ≡ type_at s.now at }
    ensures { result ≡ wanted_by s.now want at }
{
    match want {
        Wanted::Tile(i) => is_tile(s, i, kind, at),
        Wanted::Unwanted(full) => is_unwanted(s, full, kind, at),
    }
}

// Whether a record of a type is free, or is freed.
pub(crate) fn is_loose(kind: u32, freed: bool) -> bool
    ensures { result ≡ loose_by kind freed }
{
    if kind == record::FREE {
        return true;
    }
    freed
}

// Whether the run from a position on has to be made one record, with a record at `at` more that is freed or not.
fn is_due(due: bool, freed: bool, from: usize, at: usize) -> bool
    ensures { result ≡ due_by due freed from at }
{
    if due {
        return true;
    }
    if freed {
        return true;
    }
    if from < at {
        return true;
    }
    false
}

// A run of free records made one, where it is due.
fn end_run_cut(out: &mut [u8], from: usize, to: usize, due: bool, flag: u32, k: usize) -> usize
    ensures left { result ≡ k - store_count (free_run_writes (length out.old) flag from to due) }
    ensures holds { out.new ≡ stopped k (free_run_writes (length out.old) flag from to due) out.old }
{
    if due {
        return records::put_free_cut(out, from, parts::difference(to, from), flag, k);
    }
    k
}

// The records of the page, the first n bytes, from a position on: those that are wanted freed, and what is free joined.
pub fn join_cut(out: &mut [u8], n: usize, flag: u32, at: usize, want: Wanted, k: usize) -> usize
    ensures left { result ≡ k - store_count (freed_from (length out.old) flag (page_in out.old n) want at at false) }
    ensures holds { out.new ≡ stopped k (freed_from (length out.old) flag (page_in out.old n) want at at false) out.old }
{
    let mut left = k;
    let mut from = at;
    let mut due = false;
    let mut c = Cursor { at };
    loop {
        let s = wire::part_of(out, 0, n);
        let Step::Record {
            kind,
            start,
            length: _,
            next,
        } = c.step(s)
        else {
            return end_run_cut(out, from, c.at, due, flag, left);
        };
        let freed = is_wanted(s, want, kind, start);
        if is_loose(kind, freed) {
            due = is_due(due, freed, from, start);
        } else {
            left = end_run_cut(out, from, start, due, flag, left);
            from = next.at;
            due = false;
        }
        c = next;
    }
}
