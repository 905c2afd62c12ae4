// Stage 9: the metadata directory's entries.
ghost use Rattle.std.specs.Prelude.{◌≡◌, ◌<◌, length};
ghost use Rattle.check_lists.specs.Metadata.{metadata_entry_of, metadata_fits};
ghost use Rattle.bodies.specs.ListDirectories.{metadata_at, metadata_count, metadata_entry_at};

use bodies::{list_directories, metadata_record};
use header::fields;
use metadata_keys::keys;
use record::frame;

// Whether the entry at a position is that of the metadata record at another.
pub fn metadata_entry_of(s: &[u8], x: usize, p: usize) -> bool
    ensures { result ≡ metadata_entry_of s.now x p }
{
    let content = wire::u64_at(s, p);
    if content < 8 {
        return false;
    }
    if content - 8 != (x as u64) {
        return false;
    }
    if !keys::same_key(s, p, x) {
        return false;
    }
    if metadata_record::data_type(s, p) != metadata_record::data_type(s, x) {
        return false;
    }
    true
}

// Where the last entry ends; entries that start past the record's checksum are not read.
fn entries_end(s: &[u8]) -> usize
    requires { metadata_at s.now < length s.now }
    ensures { result ≡ metadata_entry_at s.now (metadata_count s.now) }
{
    let at = list_directories::metadata_at(s);
    let limit = frame::record_limit(s, at);
    let n = list_directories::metadata_count(s);
    let mut p = at + 12;
    for k in 0..n {
        if limit < p {
            return p;
        }
        p += list_directories::metadata_entry_size(s, p);
    }
    p
}

// Its count fits.
pub fn metadata_fits(s: &[u8]) -> bool
    ensures { result ≡ metadata_fits s.now }
{
    if fields::metadata_reference(s) == 0 {
        return true;
    }
    if wire::LARGEST_INTEGER < list_directories::metadata_count(s) {
        return false;
    }
    let at = list_directories::metadata_at(s);
    if s.len() <= at {
        return false;
    }
    frame::padded_to(s, at, entries_end(s))
}
