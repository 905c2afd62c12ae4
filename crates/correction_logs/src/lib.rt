// Correction logs (Req 14): whether one is right, and its entries. A log is a slice, and no byte more; it is judged by the tiles of a
// page and the bytes of a tile, so that no page is borrowed. Of a log that is not right each function promises its definition too.
#![tactic(auto)]

ghost use Rattle.std.specs.Prelude.{◌≡◌, ◌≤◌, min, length};
ghost use Rattle.correction_logs.specs.Log.{is_store, entry_tile, entry_cells, end_of_entry, entry_whole, entry_right, log_right};

use wire::big;

// Where the entries start.
pub const ENTRIES: usize = 5;

// Whether the entry at a position stores a tile. One that is right and does not removes it.
pub fn is_store(log: &[u8], at: usize) -> bool
    ensures { result ≡ is_store log.now at }
{
    wire::byte_at(log, at) == 1
}

// Its tile's index.
pub fn entry_tile(log: &[u8], at: usize) -> u32
    ensures { result ≡ entry_tile log.now at }
{
    if at < log.len() {
        return big::u32_at(log, at + 1);
    }
    0
}

// The tile's bytes of one that stores; no byte where they do not lie whole in the log.
pub fn entry_cells(log: &[u8], long: usize, at: usize) -> &[u8]
    ensures { result.now ≡ entry_cells long log.now at }
{
    if at < log.len() {
        return wire::part_of(log, at + 5, long);
    }
    &log[..0]
}

// Where it ends, or the log's end where that comes first.
pub fn end_of_entry(log: &[u8], long: usize, at: usize) -> usize
    ensures { result ≡ min (end_of_entry long log.now at) (length log.now) }
{
    let n = log.len();
    if n <= at {
        return n;
    }
    let room = n - at;
    if room < 5 {
        return n;
    }
    if is_store(log, at) {
        if room - 5 < long {
            return n;
        }
        return at + 5 + long;
    }
    at + 5
}

// Whether it is a store or a removal, and ends in the log.
fn entry_whole(log: &[u8], long: usize, at: usize) -> bool
    requires { at ≤ length log.now }
    ensures { result ≡ entry_whole long log.now at }
{
    let kind = wire::byte_at(log, at);
    let room = log.len() - at;
    if room < 5 {
        return false;
    }
    if kind == 1 {
        if room - 5 < long {
            return false;
        }
        return true;
    }
    if kind != 2 {
        return false;
    }
    true
}

// And is of a tile.
fn entry_right(log: &[u8], tiles: u64, long: usize, at: usize) -> bool
    requires { at ≤ length log.now }
    ensures { result ≡ entry_right tiles long log.now at }
{
    if entry_whole(log, long, at) {
        if tiles <= entry_tile(log, at) as u64 {
            return false;
        }
        return true;
    }
    false
}

// Whether the log is right, of a page with so many tiles of so many bytes.
pub fn log_right(log: &[u8], tiles: u64, long: usize) -> bool
    ensures { result ≡ log_right tiles long log.now }
{
    let n = log.len();
    if n < ENTRIES {
        return false;
    }
    if big::u32_at(log, 0) as usize + 4 != n {
        return false;
    }
    if wire::byte_at(log, 4) != 1 {
        return false;
    }
    let mut at = ENTRIES;
    while at < n {
        if entry_right(log, tiles, long, at) {
            at = end_of_entry(log, long, at);
        } else {
            return false;
        }
    }
    true
}
