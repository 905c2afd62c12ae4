// G 3.6.1: identifiers, and comparison of names.
ghost use Rattle.std.specs.Prelude.{◌≡◌};
ghost use Rattle.wire.specs.Bytes.{part, same_bytes};
ghost use Rattle.wire.specs.Compare.{compared};
ghost use Rattle.header.specs.Names.{letter, name_byte, name_bytes, five_rules, identifier};

use wire::Compared;

fn is_letter(b: u8) -> bool
    ensures { result ≡ letter b }
{
    b.is_ascii_alphabetic()
}

fn is_name_byte(b: u8) -> bool
    ensures { result ≡ name_byte b }
{
    b.is_ascii_alphanumeric() || b == b'_'
}

// The most characters of an element's or a metadata record's name.
pub const LONGEST: usize = 32;

// Whether a slice holds letters, numbers and underscores only.
fn are_name_bytes(name: &[u8]) -> bool
    ensures { result ≡ name_bytes name.now }
{
    name.iter().all(|b| is_name_byte(*b))
}

// Whether a slice keeps the five numbered rules, of at most so many characters.
fn five_rules(name: &[u8], most: usize) -> bool
    ensures { result ≡ five_rules most name.now }
{
    match name.split_first() {
        Some((first, rest)) => { name.len() <= most && is_letter(*first) && are_name_bytes(rest) }
        None => false,
    }
}

// Whether a slice holds an identifier of at most so many characters.
pub fn is_identifier(name: &[u8], most: usize) -> bool
    ensures { result ≡ identifier most name.now }
{
    match name.last() {
        Some(last) => *last != b'_' && five_rules(name, most),
        None => false,
    }
}

// The same of the n bytes of a slice from a position on; bytes that are not all there are no identifier.
pub fn identifier_at(s: &[u8], at: usize, n: usize, most: usize) -> bool
    ensures { result ≡ identifier most (part s.now at n) }
{
    is_identifier(wire::part_of(s, at, n), most)
}

// Compares two names, each a slice with start and length, up to the first pair of bytes that differs; a name that does not
// lie whole in its slice is the empty one.
pub fn compare_names(s: &[u8], at: usize, n: usize, t: &[u8], place: usize, m: usize) -> Compared
    ensures { result ≡ compared (part s.now at n) (part t.now place m) }
{
    wire::compare(wire::part_of(s, at, n), wire::part_of(t, place, m))
}

// Whether two names, given as to `compare_names`, are equal, byte for byte.
pub fn same_name(s: &[u8], at: usize, n: usize, t: &[u8], place: usize, m: usize) -> bool
    ensures { result ≡ same_bytes (part s.now at n) (part t.now place m) }
{
    compare_names(s, at, n, t, place, m).equal
}
