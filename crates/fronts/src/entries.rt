// The strings, blocks and entries of a header, put into a lent buffer. What does not fit whole is not written.
ghost use Rattle.std.specs.Prelude.{◌≡◌, true, min, ◌+◌, ◌*◌, ◌≤◌, ◌<◌, eqb, length};
ghost use Rattle.wire.specs.Pick.{pick};
ghost use Rattle.wire.specs.Bytes.{put};
ghost use Rattle.fronts.specs.Front.{string_of, range_count, range_number, entry_length, entry_of};
ghost use Rattle.fronts.specs.Given.{texts_length, stated_by, texts_short};
ghost use Rattle.fronts.specs.Writing.{range_bytes, head_length, head_bytes, tail_length, tail_bytes, numbers_at, Ready, entries_bytes, AllReady};

use wire::writing;
use written_records::pieces;

// The type codes that a range and fill block depends on.
const INTEGER_CODED: u8 = header::entries::INTEGER_CODED as u8;

pub(crate) const SHORT: u8 = header::entries::SHORT as u8;

// A string: its length, and its bytes.
pub(crate) fn put_string(out: &mut [u8], at: usize, t: &[u8])
    ensures { out.new ≡ put out.old at (string_of t.now) }
{
    let n = t.len();
    let room = out.len();
    if room < n {
        return;
    }
    if room - n < 2 {
        return;
    }
    if room - n - 2 < at {
        return;
    }
    writing::put_byte(out, at, (n % 256) as u8);
    writing::put_byte(out, at + 1, (n / 256 % 256) as u8);
    writing::put_bytes(out, at + 2, t);
}

// How many numbers the range and fill block of a type code has.
pub(crate) fn range_count(kind: u8) -> usize
    ensures is { result ≡ range_count kind }
    ensures few { result ≤ 8 }
{
    if kind == INTEGER_CODED { 8 } else { 3 }
}

// A number as its block has it.
fn range_number(kind: u8, v: u32) -> u32
    ensures { result ≡ range_number kind v }
{
    if kind == SHORT { v % 65536 } else { v }
}

// The first n numbers of a range and fill block.
fn put_block(out: &mut [u8], at: usize, kind: u8, n: usize, range: &[u32], first: usize)
    requires { (n ≤ 8) × ((at + 4 * n ≤ length out.old) × (first + 8 ≤ length range.now)) }
    ensures { out.new ≡ put out.old at (range_bytes kind n range.now first) }
{
    for i in 0..n {
        let v = range_number(kind, wire::number_in(range, first + i));
        writing::put_u32(out, at + 4 * i, v);
    }
}

// An entry up to its label: type code, whether it is continuous, name, range and fill block, padding.
fn put_entry_head(
    out: &mut [u8],
    at: usize,
    x: Numbers,
    name: &[u8],
    range: &[u32],
    first: usize,
) -> usize
    requires { (length name.now < 65536) × ((at + head_length x.kind (length name.now) ≤ length out.old) × (first + 8 ≤ length range.now)) }
    ensures end { result ≡ at + head_length x.kind (length name.now) }
    ensures holds { out.new ≡ put out.old at (head_bytes x.kind x.continuous name.now range.now first) }
{
    let count = range_count(x.kind);
    let block = 10 + name.len();
    let end = block + 4 * count;
    let pad = pieces::padding(end);
    writing::put_byte(out, at, x.kind);
    writing::put_byte(out, at + 1, x.continuous);
    writing::put_zeros(out, at + 2, 6);
    put_string(out, at + 8, name);
    put_block(out, at + block, x.kind, count, range, first);
    writing::put_zeros(out, at + end, pad);
    at + end + pad
}

// An entry from its label on: label, description, unit of measure, padding.
fn put_entry_tail(out: &mut [u8], at: usize, a: &[u8], b: &[u8], c: &[u8]) -> usize
    requires { (length a.now < 65536) × ((length b.now < 65536) × ((length c.now < 65536) × (at + tail_length (length a.now) (length b.now) (length c.now) ≤ length out.old))) }
    ensures end { result ≡ at + tail_length (length a.now) (length b.now) (length c.now) }
    ensures holds { out.new ≡ put out.old at (tail_bytes a.now b.now c.now) }
{
    let n = 6 + a.len() + b.len() + c.len();
    let pad = pieces::padding(n);
    let second = 2 + a.len();
    let third = 4 + a.len() + b.len();
    put_string(out, at, a);
    put_string(out, at + second, b);
    put_string(out, at + third, c);
    writing::put_zeros(out, at + n, pad);
    at + n + pad
}

// What an element's numbers say: its type code, whether it is continuous, the lengths of its strings. The code stays a number: the
// lengths are counted before it is judged, and another one than a kind's is refused only then.
#[derive(Clone, Copy)]
pub(crate) struct Numbers {
    pub(crate) kind: u8,
    pub(crate) continuous: u8,
    pub(crate) name: u32,
    pub(crate) label: u32,
    pub(crate) description: u32,
    pub(crate) unit: u32,
}

// A type code as it is written: 255 where it is more.
pub(crate) fn code_of(x: u32) -> u8
    ensures { result ≡ min x 255 }
{
    x.min(255) as u8
}

// 0 as it is, anything else as 1.
fn truth_of(x: u32) -> u8
    ensures { result ≡ pick (eqb x 0) 0 1 }
{
    u8::from(x != 0)
}

pub(crate) fn numbers_at(elements: &[u32], e: usize) -> Numbers
    requires { e * 14 + 14 ≤ length elements.now }
    ensures { result ≡ numbers_at elements.now e }
{
    let at = e * 14;
    Numbers {
        kind: code_of(wire::number_in(elements, at)),
        continuous: truth_of(wire::number_in(elements, at + 1)),
        name: wire::number_in(elements, at + 2),
        label: wire::number_in(elements, at + 3),
        description: wire::number_in(elements, at + 4),
        unit: wire::number_in(elements, at + 5),
    }
}

// The entry of element e, whose strings stand among the texts from a place on.
fn put_entry(
    out: &mut [u8],
    at: usize,
    elements: &[u32],
    e: usize,
    texts: &[u8],
    from: usize,
) -> usize
    requires { Ready elements.now texts.now e from × (at + entry_length (stated_by elements.now texts.now e) ≤ length out.old) }
    ensures end { result ≡ at + entry_length (stated_by elements.now texts.now e) }
    ensures holds { out.new ≡ put out.old at (entry_of (stated_by elements.now texts.now e)) }
{
    let x = numbers_at(elements, e);
    let first = e * 14 + 6;
    let second = from + x.name as usize;
    let third = second + x.label as usize;
    let fourth = third + x.description as usize;
    let name = wire::part_of(texts, from, x.name as usize);
    let label = wire::part_of(texts, second, x.label as usize);
    let description = wire::part_of(texts, third, x.description as usize);
    let unit = wire::part_of(texts, fourth, x.unit as usize);
    let middle = put_entry_head(out, at, x, name, elements, first);
    put_entry_tail(out, middle, label, description, unit)
}

// The bytes of an element's four strings.
pub(crate) fn texts_of(elements: &[u32], e: usize) -> usize
    requires { (e * 14 + 14 ≤ length elements.now) × (texts_short elements.now e ≡ true) }
    ensures { result ≡ texts_length elements.now e }
{
    let x = numbers_at(elements, e);
    x.name as usize + x.label as usize + x.description as usize + x.unit as usize
}

// The entries of the first n elements, one behind the other.
pub(crate) fn put_entries(
    out: &mut [u8],
    at: usize,
    elements: &[u32],
    n: usize,
    texts: &[u8],
) -> usize
    requires { AllReady elements.now texts.now n × (at + length (entries_bytes elements.now texts.now n) ≤ length out.old) }
    ensures end { result ≡ at + length (entries_bytes elements.now texts.now n) }
    ensures holds { out.new ≡ put out.old at (entries_bytes elements.now texts.now n) }
{
    let mut p = at;
    let mut from = 0;
    for e in 0..n {
        p = put_entry(out, p, elements, e, texts, from);
        from += texts_of(elements, e);
    }
    p
}
