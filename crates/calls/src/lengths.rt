// The length that a page has behind a call, and what storing a tile is to do.
ghost use Rattle.std.specs.Prelude.{◌≡◌, true};
ghost use Rattle.correct.specs.Front.{workable};
ghost use Rattle.correct.specs.Opening.{opened_length};
ghost use Rattle.correct.specs.Closing.{closed_length};
ghost use Rattle.calls.specs.Layouts.{plan_of};

use crate::Plan;
use edit_walks::{Spot, places, stored};
use geometry::{sizes, tiles};
use record::chain;
use tile_sizes;
use writable;

// Opened: longer by a full directory, where its own is not.
pub(crate) fn opened_length(s: &[u8]) -> usize
    requires { workable s.now ≡ true }
    ensures { result ≡ opened_length s.now }
{
    let n = s.len();
    if writable::directory_full(s) {
        return n;
    }
    let count = tiles::tile_count(s);
    n + sizes::least_length((32 + 4 * count) as u32) as usize
}

// With a tile stored: it ends with the new record, if that goes to the end.
pub(crate) fn plan_tile(s: &[u8], tile: u32) -> Plan
    requires { workable s.now ≡ true }
    ensures { result ≡ plan_of s.now tile }
{
    let n = s.len();
    let over = stored::stored_over(s, tile);
    if let Some(_) = over {
        return Plan {
            over,
            spot: Spot { at: 0, room: 0 },
            long: n,
        };
    }
    let long = tile_sizes::plain_tile_length(s);
    let spot = places::spot_for(s, tile, long);
    let end = spot.at + long;
    if n < end {
        return Plan {
            over,
            spot,
            long: end,
        };
    }
    Plan {
        over,
        spot,
        long: n,
    }
}

// Closed: longer by the list of free records, if there are any.
pub(crate) fn closed_length(s: &[u8]) -> usize
    requires { workable s.now ≡ true }
    ensures { result ≡ closed_length s.now }
{
    let n = s.len();
    let count = chain::record_count(s, record::FREE);
    if count == 0 {
        return n;
    }
    n + sizes::least_length((12 + 12 * count) as u32) as usize
}
