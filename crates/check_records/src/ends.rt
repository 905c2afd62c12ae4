// Where a record's fields end.
ghost use Rattle.std.specs.Prelude.{◌≡◌};
ghost use Rattle.check_records.specs.Frame.{end_right};

use geometry::sizes;
use record::frame;

// The largest number of a length field of four bytes.
const LARGEST_LENGTH: usize = 4294967295;

// Stage 8: the record's fields end at `end`, before its checksum, and its length is the least that holds them.
pub fn end_right(s: &[u8], at: usize, end: usize) -> bool
    ensures { result ≡ end_right s.now at end }
{
    let length = wire::u32_at(s, at);
    if frame::record_limit(s, at) < end {
        return false;
    }
    let n = end.saturating_sub(at);
    if LARGEST_LENGTH < n {
        return false;
    }
    if sizes::least_length(n as u32) != (length as u64) {
        return false;
    }
    true
}
