// What is asked of a tile before it is stored or removed, and of a page before it is closed.
ghost use Rattle.std.specs.Prelude.{◌≡◌, ◌<◌, length};
ghost use Rattle.correct.specs.Storing.{tile_referred, is_plain};
ghost use Rattle.correct.specs.Removing.{is_there};
ghost use Rattle.correct.specs.Closing.{any_free};
ghost use Rattle.edit_walks.specs.Walks.{over_at};
ghost use Rattle.edit_walks.specs.Runs.{plain_element};

use crate::freeing;
use bodies::{tile_directory, tile_record};
use geometry::sizes;
use header::fields;
use record::chain;
use tile_routes::{Route, routes};

// The tile's record, by the tile directory: what the reference gives, if that is a tile record with the index.
fn tile_referred(s: &[u8], tile: u32) -> Option<usize>
    ensures { result ≡ tile_referred s.now tile }
{
    let at = tile_directory::tile_directory_at(s);
    match routes::found_by(s, Route::Directory(at), tile) {
        None => None,
        Some(x) => {
            if freeing::is_tile(s, tile, wire::byte_off(s, x, 4), x) {
                return Some(x);
            }
            None
        }
    }
}

// Whether an element of the tile record at x is uncompressed.
fn is_plain_element(s: &[u8], x: usize, e: u32) -> bool
    requires { x < length s.now }
    ensures { result ≡ plain_element s.now x e }
{
    let l = wire::u32_at(s, tile_record::section_start(s, x, e)) as u64;
    if l != sizes::element_bytes(s, e as usize) {
        return false;
    }
    true
}

// Whether all of them are.
fn is_plain(s: &[u8], x: usize) -> bool
    requires { x < length s.now }
    ensures { result ≡ is_plain s.now x }
{
    let n = fields::element_count(s);
    let mut e = 0;
    while e < n {
        if is_plain_element(s, x, e) {
            e += 1;
        } else {
            return false;
        }
    }
    true
}

// The tile's record, if it is stored over.
pub fn stored_over(s: &[u8], tile: u32) -> Option<usize>
    ensures { result ≡ over_at s.now tile }
{
    match tile_referred(s, tile) {
        None => None,
        Some(x) => {
            if is_plain(s, x) {
                return Some(x);
            }
            None
        }
    }
}

// Whether the tile has a record.
pub fn is_there(s: &[u8], tile: u32) -> bool
    ensures { result ≡ is_there s.now tile }
{
    if let Some(_) = tile_referred(s, tile) {
        return true;
    }
    false
}

// Whether the page has a free record.
pub fn any_free(s: &[u8]) -> bool
    ensures { result ≡ any_free s.now }
{
    if chain::record_count(s, record::FREE) == 0 {
        return false;
    }
    true
}
