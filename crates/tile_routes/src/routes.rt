// The routes to the record of a tile.
ghost use Rattle.std.specs.Prelude.{◌≡◌};
ghost use Rattle.tile_routes.specs.Ways.{referred_to, walked_to, found_by};

use crate::Route;
use bodies::tile_directory;
use record::{Cursor, Step, frame};

// The record that the directory at a position gives for a tile, 8 before its reference; nothing where that is zero.
fn referred_to(s: &[u8], at: usize, tile: u32) -> Option<usize>
    ensures { result ≡ referred_to s.now at tile }
{
    let reference = tile_directory::reference_from(s, at, tile);
    if reference == 0 {
        return None;
    }
    Some(frame::record_of(reference))
}

// The first tile record with an index from a position on, where the header ends: the walk stops there.
// It keeps a loop of its own, and is no chain::find: docs/DECISIONS.md names this form, a labelled loop that the test leaves.
fn walked_to(s: &[u8], at: usize, tile: u32) -> Option<usize>
    ensures { result ≡ walked_to s.now at tile }
{
    let mut c = Cursor { at };
    let start = 'walk: loop {
        let Step::Record {
            kind,
            start,
            length: _,
            next,
        } = c.step(s)
        else {
            return None;
        };
        if kind == record::TILE {
            if wire::u32_off(s, start, 8) == tile {
                break 'walk start;
            }
        }
        c = next;
    };
    Some(start)
}

// By either.
pub fn found_by(s: &[u8], route: Route, tile: u32) -> Option<usize>
    ensures { result ≡ found_by s.now route tile }
{
    match route {
        Route::Directory(at) => referred_to(s, at, tile),
        Route::Walk(at) => walked_to(s, at, tile),
    }
}
