// G Tables 5 and 8 to 12: strings and element entries. A slice has less than 2^63 bytes, and no position here lies further behind
// its end than two of the longest entries do, so positions stay far below 2^64.
ghost use Rattle.std.specs.Prelude.{◌≡◌, ◌+◌, ◌≤◌, ◌<◌, ◌*◌, length};
ghost use Rattle.header.specs.Element.{string_size, string_end, block_size, cell_size, block_at, label_at, entry_end, fill_bits, entry_at, entry_start, next_entry, element, entries_read, longest_string, longest_entry, most_elements, unit_at, unit_place, unit_length};

use crate::{Element, fields};

// Type codes of elements (G Table 8); an Integer's is 0, and none is above a Short's.
pub const INTEGER_CODED: u32 = 1;

pub const FLOAT: u32 = 2;

pub const SHORT: u32 = 3;

// The most elements that a page has.
pub const MOST_ELEMENTS: u32 = 16;

// The size of the string at a position.
pub fn string_size(s: &[u8], at: usize) -> usize
    ensures is { result ≡ string_size s.now at }
    ensures near { (2 ≤ result) × (result ≤ longest_string) }
{
    2 + wire::u16_at(s, at) as usize
}

// Where the string at a position ends.
pub(crate) fn string_end(s: &[u8], at: usize) -> usize
    requires { at ≤ length s.now + 2 * longest_entry }
    ensures is { result ≡ string_end s.now at }
    ensures near { (at + 2 ≤ result) × (result ≤ at + longest_string) }
{
    at + string_size(s, at)
}

// The size of the range and fill block of an element of a type code.
fn block_size(kind: u32) -> usize
    ensures is { result ≡ block_size kind }
    ensures near { result ≤ 32 }
{
    if kind == INTEGER_CODED {
        return 32;
    }
    12
}

// The bytes of a value of a type code.
pub fn cell_size(kind: u32) -> u32
    ensures { result ≡ cell_size kind }
{
    if kind == SHORT {
        return 2;
    }
    4
}

// Where the range and fill block of the entry at a position stands.
fn block_at(s: &[u8], at: usize) -> usize
    requires { at ≤ length s.now + longest_entry }
    ensures is { result ≡ block_at s.now at }
    ensures near { (at + 10 ≤ result) × (result ≤ at + 8 + longest_string) }
{
    string_end(s, at + 8)
}

// Where the label of the entry at a position stands.
pub(crate) fn label_at(s: &[u8], at: usize) -> usize
    requires { at ≤ length s.now + longest_entry }
    ensures is { result ≡ label_at s.now at }
    ensures near { (at + 10 ≤ result) × (result ≤ at + 43 + longest_string) }
{
    let block = block_at(s, at);
    let size = block_size(wire::byte_at(s, at));
    (block + size + 3) / 4 * 4
}

// Where the entry at a position ends.
fn entry_end(s: &[u8], at: usize) -> usize
    requires { at ≤ length s.now + longest_entry }
    ensures is { result ≡ entry_end s.now at }
    ensures near { (at + 10 ≤ result) × (result ≤ at + longest_entry) }
{
    let label = label_at(s, at);
    let description = string_end(s, label);
    let unit = string_end(s, description);
    let end = string_end(s, unit);
    at + (end - at + 3) / 4 * 4
}

// The bit pattern of its fill value, of the entry at a position.
fn fill_bits(s: &[u8], at: usize) -> u32
    requires { at ≤ length s.now + longest_entry }
    ensures { result ≡ fill_bits s.now at }
{
    let kind = wire::byte_at(s, at);
    let block = block_at(s, at);
    if kind == INTEGER_CODED {
        return wire::u32_off(s, block, 28);
    }
    if kind == SHORT {
        return wire::u16_off(s, block, 8);
    }
    wire::u32_off(s, block, 8)
}

// The specification of the entry at a position.
fn entry_at(s: &[u8], at: usize) -> Element
    requires { at ≤ length s.now + longest_entry }
    ensures { result ≡ entry_at s.now at }
{
    let kind = wire::byte_at(s, at);
    let name_length = wire::u16_off(s, at, 8) as usize;
    let fill = fill_bits(s, at);
    let end = entry_end(s, at);
    Element {
        kind,
        name: at + 10,
        name_length,
        fill,
        end,
    }
}

// Where entry e starts; an entry that starts past the start of the header's last four bytes is not read.
pub fn entry_start(s: &[u8], e: usize) -> usize
    ensures is { result ≡ entry_start s.now e }
    ensures near { result ≤ length s.now + longest_entry }
{
    let limit = fields::header_limit(s);
    let mut at = 284;
    for _ in 0..e {
        if limit < at {
            break;
        }
        at = entry_end(s, at);
    }
    at
}

// Where the entry behind the one at a position starts; the position itself where it is past the start of the header's last four bytes.
pub fn next_entry(s: &[u8], at: usize) -> usize
    ensures { result ≡ next_entry s.now at }
{
    if fields::header_limit(s) < at {
        return at;
    }
    entry_end(s, at)
}

// Element number e.
pub fn element(s: &[u8], e: usize) -> Element
    ensures { result ≡ element s.now e }
{
    entry_at(s, entry_start(s, e))
}

// Where the length field of the unit string of element e stands.
fn unit_at(s: &[u8], e: usize) -> usize
    ensures is { result ≡ unit_at s.now (entry_start s.now e) }
    ensures near { result ≤ length s.now + 2 * longest_entry }
{
    let at = entry_start(s, e);
    let label = label_at(s, at);
    let description = string_end(s, label);
    string_end(s, description)
}

// The place of its bytes, just behind the length field, even if there are none, and how many there are.
pub fn unit_place(s: &[u8], e: usize) -> usize
    ensures { result ≡ unit_place s.now e }
{
    unit_at(s, e) + 2
}

pub fn unit_length(s: &[u8], e: usize) -> usize
    ensures { result ≡ unit_length s.now e }
{
    wire::u16_at(s, unit_at(s, e)) as usize
}

// The number of entries that are read.
pub fn entries_read(s: &[u8]) -> usize
    ensures is { result ≡ entries_read s.now }
    ensures few { result ≤ most_elements }
{
    let n = fields::element_count(s);
    if n <= MOST_ELEMENTS {
        return n as usize;
    }
    MOST_ELEMENTS as usize
}
