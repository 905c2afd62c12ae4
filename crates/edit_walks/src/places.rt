// Where a new record goes: one walk over the records, which counts a run of free records as one.
ghost use Rattle.std.specs.Prelude.{◌≡◌, ◌+◌, ◌≤◌, length};
ghost use Rattle.record.specs.Chain.{header_end};
ghost use Rattle.edit_walks.specs.Walks.{spot_of};
ghost use Rattle.edit_walks.specs.Runs.{fits_run, last_spot};

use crate::{Spot, Wanted, freeing};
use record::{Cursor, Step};
use written_records::pieces as parts;

// Whether a run of so many bytes takes n: it is as long, or a record's least length is left over.
fn is_fit(n: usize, room: usize) -> bool
    ensures { result ≡ fits_run n room }
{
    if room == 0 {
        return false;
    }
    if room == n {
        return true;
    }
    if room < 16 {
        return false;
    }
    if room - 16 < n {
        return false;
    }
    true
}

// Where n bytes go if the records end at `to`.
fn last_spot(from: usize, to: usize, n: usize) -> Spot
    ensures is { result ≡ last_spot from to n }
    ensures near { result.at ≤ to }
{
    let room = parts::difference(to, from);
    if is_fit(n, room) {
        return Spot { at: from, room };
    }
    Spot { at: to, room: n }
}

// The position behind the header record, and that four bytes hold the header's length.
pub fn records_start(s: &[u8]) -> usize
    ensures is { result ≡ header_end s.now }
    ensures near { result ≤ 4294967311 }
{
    16 + wire::u32_at(s, 16) as usize
}

// Where a record of n bytes for a tile goes, with what the tile has freed.
pub fn spot_for(s: &[u8], tile: u32, n: usize) -> Spot
    ensures is { result ≡ spot_of s.now tile n }
    ensures near { result.at ≤ 4294967311 + length s.now }
{
    let mut c = Cursor {
        at: records_start(s),
    };
    let mut from = c.at;
    loop {
        let Step::Record {
            kind,
            start,
            length: _,
            next,
        } = c.step(s)
        else {
            return last_spot(from, c.at, n);
        };
        let freed = freeing::is_wanted(s, Wanted::Tile(tile), kind, start);
        if freeing::is_loose(kind, freed) {
            c = next;
        } else {
            let room = start - from;
            if is_fit(n, room) {
                return Spot { at: from, room };
            }
            from = next.at;
            c = next;
        }
    }
}
