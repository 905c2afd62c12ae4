// The fields of a tile record.
ghost use Rattle.std.specs.Prelude.{◌≡◌, ◌+◌, ◌≤◌, ◌<◌, length};
ghost use Rattle.bodies.specs.TileRecord.{section_end, section_at, next_section, section_start, longest_section};

use geometry::sizes;
use record::frame;

// Where the section at a position ends.
fn section_end(s: &[u8], p: usize) -> usize
    requires { p ≤ length s.now }
    ensures is { result ≡ section_end s.now p }
    ensures near { (p + 4 ≤ result) × (result ≤ p + longest_section) }
{
    p + sizes::stored_size(wire::u32_at(s, p)) as usize
}

// Where the section of element e of the tile record at a position starts. It counts down: its definition takes how many are left.
fn section_at(s: &[u8], at: usize, e: u32) -> usize
    requires { at < length s.now }
    ensures is { result ≡ section_at s.now at e }
    ensures near { result ≤ length s.now + 12 + longest_section }
{
    let limit = frame::record_limit(s, at);
    let mut p = at + 12;
    let mut left = e;
    while 0 < left {
        if limit < p {
            return p;
        }
        p = section_end(s, p);
        left -= 1;
    }
    p
}

// Where the section behind the one at p starts, in the tile record at a position; p itself where it is past the start of the record's
// checksum.
pub fn next_section(s: &[u8], at: usize, p: usize) -> usize
    ensures { result ≡ next_section s.now at p }
{
    if frame::record_limit(s, at) < p {
        return p;
    }
    section_end(s, p)
}

// Where the section of element e starts, of any position; 0 where it is past the file.
pub fn section_start(s: &[u8], at: usize, e: u32) -> usize
    ensures is { result ≡ section_start s.now at e }
    ensures near { result ≤ length s.now + 12 + longest_section }
{
    if s.len() <= at {
        return 0;
    }
    section_at(s, at, e)
}
