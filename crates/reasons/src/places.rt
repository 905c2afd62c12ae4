// Where the label of an element and the number of compression methods stand.
ghost use Rattle.std.specs.Prelude.{◌≡◌, ◌+◌, ◌*◌, ◌≤◌, length};
ghost use Rattle.header.specs.Element.{block_size, block_at, label_at, entry_start, longest_string, longest_entry};
ghost use Rattle.header.specs.Tail.{methods_at};

use header::{entries, fields};

// The size of the range and fill block of an element of a type code.
fn block_bytes(kind: u32) -> usize
    ensures is { result ≡ block_size kind }
    ensures near { result ≤ 32 }
{
    if kind == entries::INTEGER_CODED {
        return 32;
    }
    12
}

// Where the label of element e stands.
pub fn label_of(s: &[u8], e: usize) -> usize
    ensures is { result ≡ label_at s.now (entry_start s.now e) }
    ensures near { result ≤ length s.now + 2 * longest_entry }
{
    let at = entries::entry_start(s, e);
    let block = at + 8 + entries::string_size(s, at + 8);
    let size = block_bytes(wire::byte_at(s, at));
    (block + size + 3) / 4 * 4
}

// Where the number of compression methods stands.
pub fn methods_from(s: &[u8]) -> usize
    ensures { result ≡ methods_at s.now }
{
    entries::entry_start(s, fields::element_count(s) as usize)
}
