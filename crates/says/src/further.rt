// What the header says of a page and of an element beside the numbers of `store::description`. No check is made: this is what the fields of
// any bytes hold, and serves a product that has made the check.
ghost use Rattle.std.specs.Prelude.{◌≡◌, ◌+◌, ◌≤◌, length};
ghost use Rattle.header.specs.Element.{longest_string, longest_entry, block_size, block_at, label_at};
ghost use Rattle.says.specs.Further.{said_of_page, texts_at, range_bits, coded_bits, coded_at, said_at, said_of_element};

use header::{entries, fields, tail};

// Of a page: place and length of its product label, the UUID's place, the number of methods, raster space and coordinate system, place and
// length of the coordinates.
#[derive(Clone, Copy)]
pub struct PageSaid {
    pub label: usize,
    pub label_length: usize,
    pub uuid: usize,
    pub methods: u32,
    pub raster_space: u32,
    pub coordinate_system: u32,
    pub coordinates: usize,
    pub coordinates_length: usize,
}

// Place and length of an element's label and of its description.
#[derive(Clone, Copy)]
pub struct Texts {
    pub label: usize,
    pub label_length: usize,
    pub description: usize,
    pub description_length: usize,
}

// The bits of the Floats of an integer-coded element; 0 of every other.
#[derive(Clone, Copy)]
pub struct Floats {
    pub minimum: u32,
    pub maximum: u32,
    pub fill: u32,
    pub scale: u32,
    pub offset: u32,
}

// Of an element: its texts, whether it is continuous, the bits of its minimum and maximum, 16 of a Short, and its Floats.
#[derive(Clone, Copy)]
pub struct ElementSaid {
    pub texts: Texts,
    pub continuous: u32,
    pub minimum: u32,
    pub maximum: u32,
    pub coded: Floats,
}

// Of a page. Its time is a step for each element and each method.
pub fn of_page(file: &[u8]) -> PageSaid
    ensures { result ≡ said_of_page file.now }
{
    let label = tail::product_label_at(file);
    let label_length = wire::u16_at(file, label) as usize;
    let methods = tail::method_count(file);
    let raster_space = fields::raster_space(file);
    let coordinate_system = fields::coordinate_system(file);
    PageSaid {
        label: label + 2,
        label_length,
        uuid: 24,
        methods,
        raster_space,
        coordinate_system,
        coordinates: 136,
        coordinates_length: 144,
    }
}

// Where the range and fill block of the entry at a position stands.
fn block_start(s: &[u8], at: usize) -> usize
    requires { at ≤ length s.now + longest_entry }
    ensures is { result ≡ block_at s.now at }
    ensures near { result ≤ at + 8 + longest_string }
{
    at + 8 + entries::string_size(s, at + 8)
}

// The bytes of the block, by the type code.
fn block_bytes(kind: u32) -> usize
    ensures is { result ≡ block_size kind }
    ensures near { result ≤ 32 }
{
    if kind == entries::INTEGER_CODED {
        return 32;
    }
    12
}

// Where the label stands.
fn label_start(s: &[u8], at: usize) -> usize
    requires { at ≤ length s.now + longest_entry }
    ensures is { result ≡ label_at s.now at }
    ensures near { result ≤ at + 43 + longest_string }
{
    let block = block_start(s, at);
    let size = block_bytes(wire::byte_at(s, at));
    (block + size + 3) / 4 * 4
}

// The label and the description.
fn texts_at(s: &[u8], at: usize) -> Texts
    requires { at ≤ length s.now + longest_entry }
    ensures { result ≡ texts_at s.now at }
{
    let label = label_start(s, at);
    let label_length = wire::u16_at(s, label) as usize;
    let description = label + entries::string_size(s, label);
    let description_length = wire::u16_at(s, description) as usize;
    Texts {
        label: label + 2,
        label_length,
        description: description + 2,
        description_length,
    }
}

// The bits of the minimum at 0 of the range, and of the maximum at 4.
fn range_bits(s: &[u8], at: usize, d: usize) -> u32
    requires { (at ≤ length s.now + longest_entry) × (d ≤ 4) }
    ensures { result ≡ range_bits s.now at d }
{
    let kind = wire::byte_at(s, at);
    let block = block_start(s, at);
    if kind == entries::INTEGER_CODED {
        return wire::u32_off(s, block, 20 + d);
    }
    if kind == entries::SHORT {
        return wire::u16_off(s, block, d);
    }
    wire::u32_off(s, block, d)
}

// The bits of a Float of an integer-coded element.
fn coded_bits(s: &[u8], at: usize, d: usize) -> u32
    requires { at ≤ length s.now + longest_entry }
    ensures { result ≡ coded_bits s.now at d }
{
    if wire::byte_at(s, at) == entries::INTEGER_CODED {
        return wire::u32_off(s, block_start(s, at), d);
    }
    0
}

// All five.
fn coded_at(s: &[u8], at: usize) -> Floats
    requires { at ≤ length s.now + longest_entry }
    ensures { result ≡ coded_at s.now at }
{
    let minimum = coded_bits(s, at, 0);
    let maximum = coded_bits(s, at, 4);
    let fill = coded_bits(s, at, 8);
    let scale = coded_bits(s, at, 12);
    let offset = coded_bits(s, at, 16);
    Floats {
        minimum,
        maximum,
        fill,
        scale,
        offset,
    }
}

// Of the entry at a position.
fn said_at(s: &[u8], at: usize) -> ElementSaid
    requires { at ≤ length s.now + longest_entry }
    ensures { result ≡ said_at s.now at }
{
    let texts = texts_at(s, at);
    let continuous = wire::byte_off(s, at, 1);
    let minimum = range_bits(s, at, 0);
    let maximum = range_bits(s, at, 4);
    let coded = coded_at(s, at);
    ElementSaid {
        texts,
        continuous,
        minimum,
        maximum,
        coded,
    }
}

// Of element e. Its time is a step for each element before it.
pub fn of_element(file: &[u8], e: u64) -> ElementSaid
    ensures { result ≡ said_of_element file.now e }
{
    let at = entries::entry_start(file, e as usize);
    said_at(file, at)
}
