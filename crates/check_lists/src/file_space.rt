// Stage 9: the file-space directory's entries.
ghost use Rattle.std.specs.Prelude.{◌≡◌};
ghost use Rattle.check_lists.specs.FileSpace.{free_entry_of, free_fits};

use bodies::list_directories;
use header::fields;
use record::frame;

// It has at least one entry, and its count fits.
pub fn free_fits(s: &[u8]) -> bool
    ensures { result ≡ free_fits s.now }
{
    if fields::file_space_reference(s) == 0 {
        return true;
    }
    let count = list_directories::free_count(s);
    if count < 1 {
        return false;
    }
    if wire::LARGEST_INTEGER < count {
        return false;
    }
    frame::entries_fit(s, list_directories::file_space_at(s), 12, count as u64, 12)
}

// Whether the entry at a position is that of the free-space record at another.
pub fn free_entry_of(s: &[u8], x: usize, p: usize) -> bool
    ensures { result ≡ free_entry_of s.now x p }
{
    if wire::u64_at(s, p) != (x as u64) {
        return false;
    }
    if wire::u32_off(s, p, 8) != wire::u32_at(s, x) {
        return false;
    }
    true
}
