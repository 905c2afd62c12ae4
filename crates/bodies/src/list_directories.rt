// The fields of the file-space directory and of the metadata directory.
ghost use Rattle.std.specs.Prelude.{◌≡◌, ◌≤◌, ◌+◌};
ghost use Rattle.header.specs.Element.{longest_string};
ghost use Rattle.bodies.specs.ListDirectories.{entry_count, file_space_at, free_count, metadata_at, metadata_count, metadata_entry_size};

use header::fields;
use record::frame;

// How many entries the file-space or metadata directory lists.
fn entry_count(s: &[u8], reference: u64) -> u32
    ensures { result ≡ entry_count s.now reference }
{
    if reference == 0 {
        return 0;
    }
    wire::u32_at(s, reference as usize)
}

// The start of the record that the header refers to.
pub fn file_space_at(s: &[u8]) -> usize
    ensures { result ≡ file_space_at s.now }
{
    frame::record_of(fields::file_space_reference(s))
}

// How many free-space records it lists.
pub fn free_count(s: &[u8]) -> u32
    ensures { result ≡ free_count s.now }
{
    entry_count(s, fields::file_space_reference(s))
}

// The start of the record that the header refers to.
pub fn metadata_at(s: &[u8]) -> usize
    ensures { result ≡ metadata_at s.now }
{
    frame::record_of(fields::metadata_reference(s))
}

// How many metadata records it lists.
pub fn metadata_count(s: &[u8]) -> u32
    ensures { result ≡ metadata_count s.now }
{
    entry_count(s, fields::metadata_reference(s))
}

// The size of the entry at a position.
pub fn metadata_entry_size(s: &[u8], p: usize) -> usize
    ensures is { result ≡ metadata_entry_size s.now p }
    ensures near { result ≤ 13 + longest_string }
{
    15 + wire::u16_off(s, p, 8) as usize
}
