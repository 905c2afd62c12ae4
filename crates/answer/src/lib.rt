// The answer types, and what each case says as numbers. Positions and lengths are `usize`, since they index the caller's slice. A bit
// pattern is unsigned: it is compared and kept, not calculated with.
#![tactic(auto)]

ghost use Rattle.std.specs.Prelude.{◌≡◌, ◌%◌};
ghost use Rattle.std.specs.Float.Ieee.{of_bits};
ghost use Rattle.std.specs.Float.{binary32};
ghost use Rattle.std.specs.Int.{w16, w32};
ghost use Rattle.std.proofs.Common.{to_z, of_z};
ghost use Rattle.answer.specs.Refusals.{refusal_number, refusal_place, verdict_number, verdict_place};
ghost use Rattle.answer.specs.Values.{value_of, value_type, value_bits};
ghost use Rattle.answer.specs.Answers.{cell_kind, cell_type, cell_bits, cell_place, cell_verdict, answer_tile, answer_inside, content_kind, content_place, content_length, held_kind, held_place, lookup_kind, lookup_number, laid_number};

// Document 01's thirteen refusals, in their order, with a place where it gives one that varies; then document 02's:
// compressed content is malformed, a page is not open for writing, and a byte that a stage needs is not given.
#[derive(Clone, Copy)]
pub enum Refusal {
    Identification,
    Version,
    Header,
    Ceiling,
    Opened,
    Chain(usize),
    Checksum(usize),
    Body(usize),
    Directory,
    OutsideGrid,
    Compressed(usize),
    Input,
    Room,
    Malformed(usize),
    NotOpen,
    Incomplete,
}

// A value of an element's type. The Float case has the f32 of the bit pattern, and the pattern itself, since the one
// NaN of the language does not keep a NaN's bits.
#[derive(Clone, Copy)]
pub enum Value {
    Integer(i32),
    IntegerCoded(i32),
    Float { value: f32, bits: u32 },
    Short(i16),
}

// Where a cell lies: the index of its tile, and its number inside the tile.
#[derive(Clone, Copy)]
pub struct Location {
    pub tile: u64,
    pub inside: u64,
}

// What a cell read answers.
#[derive(Clone, Copy)]
pub enum Cell {
    Stored {
        value: Value,
        place: usize,
        location: Location,
    },
    Fill {
        value: Value,
        location: Location,
    },
    Unpacked {
        value: Value,
        place: usize,
        location: Location,
    },
}

// Where the content of an element lies in a tile's record.
#[derive(Clone, Copy)]
pub struct Extent {
    pub start: usize,
    pub length: usize,
}

// What is said of all cells of an element in a tile: where their content starts, stored or unpacked. Alone: it is compressed, and the
// room that was lent is too short for all of them, so that each is looked up by itself.
#[derive(Clone, Copy)]
pub enum Held {
    Stored(usize),
    Unpacked(usize),
    Absent,
    Alone,
}

// Functions and no From: an answer gives several numbers (a kind, a place, a length), and a Result has no methods of this crate.
// The papers' number of a refusal.
pub fn refusal_number(r: Refusal) -> u32
    ensures { result ≡ refusal_number r }
{
    match r {
        Refusal::Identification => 1,
        Refusal::Version => 2,
        Refusal::Header => 3,
        Refusal::Ceiling => 4,
        Refusal::Opened => 5,
        Refusal::Chain(_) => 6,
        Refusal::Checksum(_) => 7,
        Refusal::Body(_) => 8,
        Refusal::Directory => 9,
        Refusal::OutsideGrid => 10,
        Refusal::Compressed(_) => 11,
        Refusal::Input => 12,
        Refusal::Room => 13,
        Refusal::Malformed(_) => 14,
        Refusal::NotOpen => 15,
        Refusal::Incomplete => 16,
    }
}

// The papers' place of a refusal.
pub fn refusal_place(r: Refusal) -> usize
    ensures { result ≡ refusal_place r }
{
    match r {
        Refusal::Chain(at)
        | Refusal::Checksum(at)
        | Refusal::Body(at)
        | Refusal::Compressed(at)
        | Refusal::Malformed(at) => at,
        Refusal::Directory => 16,
        _ => 0,
    }
}

// 0 where a check accepts, else the refusal's number.
pub fn verdict_number(v: Result<(), Refusal>) -> u32
    ensures { result ≡ verdict_number v }
{
    match v {
        Ok(()) => 0,
        Err(r) => refusal_number(r),
    }
}

pub fn verdict_place(v: Result<(), Refusal>) -> usize
    ensures { result ≡ verdict_place v }
{
    match v {
        Ok(()) => 0,
        Err(r) => refusal_place(r),
    }
}

// The float of a bit pattern; of each NaN's pattern the one NaN of the language.
fn float_of(bits: u32) -> f32
    ensures { result ≡ of_bits binary32 bits }
{
    if 0x7F80_0000 < bits % 0x8000_0000 {
        return 0.0 / 0.0;
    }
    f32::from_bits(bits)
}

// Two's complement, of 32 bits and of 16, and back.
fn signed_32(bits: u32) -> i32
    ensures { result ≡ to_z w32 bits }
{
    bits.cast_signed()
}

pub fn signed_16(bits: u16) -> i16
    ensures { result ≡ to_z w16 bits }
{
    bits.cast_signed()
}

fn bits_32(z: i32) -> u32
    ensures { result ≡ of_z w32 z }
{
    z.cast_unsigned()
}

pub fn bits_16(z: i16) -> u16
    ensures { result ≡ of_z w16 z }
{
    z.cast_unsigned()
}

// The value of a bit pattern, by the element's type code. No enum for the code: header::Element says why.
pub fn value_of(kind: u32, bits: u32) -> Value
    ensures { result ≡ value_of kind bits }
{
    match kind {
        1 => Value::IntegerCoded(signed_32(bits)),
        2 => Value::Float {
            value: float_of(bits),
            bits,
        },
        3 => Value::Short(signed_16((bits % 65536) as u16)),
        _ => Value::Integer(signed_32(bits)),
    }
}

// A value's type code.
fn value_type(v: Value) -> u32
    ensures { result ≡ value_type v }
{
    match v {
        Value::Integer(_) => 0,
        Value::IntegerCoded(_) => 1,
        Value::Float { value: _, bits: _ } => 2,
        Value::Short(_) => 3,
    }
}

// A value's bit pattern.
pub fn value_bits(v: Value) -> u32
    ensures { result ≡ value_bits v }
{
    match v {
        Value::Integer(z) => bits_32(z),
        Value::IntegerCoded(z) => bits_32(z),
        Value::Float { value: _, bits } => bits,
        Value::Short(z) => bits_16(z) as u32,
    }
}

// A cell answer's kind, type code, bits and place.
pub fn cell_kind(x: Result<Cell, Refusal>) -> u32
    ensures { result ≡ cell_kind x }
{
    match x {
        Ok(Cell::Stored { .. }) => 32,
        Ok(Cell::Fill { .. }) => 33,
        Ok(Cell::Unpacked { .. }) => 34,
        Err(r) => refusal_number(r),
    }
}

pub fn cell_type(x: Result<Cell, Refusal>) -> u32
    ensures { result ≡ cell_type x }
{
    match x {
        Ok(Cell::Stored { value, .. }) => value_type(value),
        Ok(Cell::Fill { value, .. }) => value_type(value),
        Ok(Cell::Unpacked { value, .. }) => value_type(value),
        Err(_) => 0,
    }
}

pub fn cell_bits(x: Result<Cell, Refusal>) -> u32
    ensures { result ≡ cell_bits x }
{
    match x {
        Ok(Cell::Stored { value, .. }) => value_bits(value),
        Ok(Cell::Fill { value, .. }) => value_bits(value),
        Ok(Cell::Unpacked { value, .. }) => value_bits(value),
        Err(_) => 0,
    }
}

pub fn cell_place(x: Result<Cell, Refusal>) -> usize
    ensures { result ≡ cell_place x }
{
    match x {
        Ok(Cell::Stored { place, .. }) => place,
        Ok(Cell::Fill { .. }) => 0,
        Ok(Cell::Unpacked { place, .. }) => place,
        Err(r) => refusal_place(r),
    }
}

// A cell answer's refusal as a check's; accepted where it is none.
pub fn cell_verdict(x: Result<Cell, Refusal>) -> Result<(), Refusal>
    ensures { result ≡ cell_verdict x }
{
    match x {
        Ok(Cell::Stored { .. }) => Ok(()),
        Ok(Cell::Fill { .. }) => Ok(()),
        Ok(Cell::Unpacked { .. }) => Ok(()),
        Err(r) => Err(r),
    }
}

// The index of a cell's tile and its number inside the tile; 0 and 0 of a refusal.
pub fn cell_tile(x: Result<Cell, Refusal>) -> u64
    ensures { result ≡ answer_tile x }
{
    match x {
        Ok(Cell::Stored { location, .. }) => location.tile,
        Ok(Cell::Fill { location, .. }) => location.tile,
        Ok(Cell::Unpacked { location, .. }) => location.tile,
        Err(_) => 0,
    }
}

pub fn cell_inside(x: Result<Cell, Refusal>) -> u64
    ensures { result ≡ answer_inside x }
{
    match x {
        Ok(Cell::Stored { location, .. }) => location.inside,
        Ok(Cell::Fill { location, .. }) => location.inside,
        Ok(Cell::Unpacked { location, .. }) => location.inside,
        Err(_) => 0,
    }
}

// A content answer's kind, place and length.
pub fn content_kind(x: Result<Option<Extent>, Refusal>) -> u32
    ensures { result ≡ content_kind x }
{
    match x {
        Ok(Some(_)) => 32,
        Ok(None) => 33,
        Err(r) => refusal_number(r),
    }
}

pub fn content_place(x: Result<Option<Extent>, Refusal>) -> usize
    ensures { result ≡ content_place x }
{
    match x {
        Ok(Some(x)) => x.start,
        Ok(None) => 0,
        Err(r) => refusal_place(r),
    }
}

pub fn content_length(x: Result<Option<Extent>, Refusal>) -> usize
    ensures { result ≡ content_length x }
{
    match x {
        Ok(Some(x)) => x.length,
        Ok(None) => 0,
        Err(_) => 0,
    }
}

// A look-up answer's kind, and its number or place.
pub fn lookup_kind(x: Result<Option<usize>, Refusal>) -> u32
    ensures { result ≡ lookup_kind x }
{
    match x {
        Ok(Some(_)) => 32,
        Ok(None) => 33,
        Err(r) => refusal_number(r),
    }
}

pub fn lookup_number(x: Result<Option<usize>, Refusal>) -> usize
    ensures { result ≡ lookup_number x }
{
    match x {
        Ok(Some(e)) => e,
        Ok(None) => 0,
        Err(r) => refusal_place(r),
    }
}

// The kind and place of an answer about all cells of an element in a tile.
pub fn held_kind(x: Result<Held, Refusal>) -> u32
    ensures { result ≡ held_kind x }
{
    match x {
        Ok(Held::Stored(_)) => 32,
        Ok(Held::Unpacked(_)) => 34,
        Ok(Held::Absent) => 33,
        Ok(Held::Alone) => 0,
        Err(r) => refusal_number(r),
    }
}

pub fn held_place(x: Result<Held, Refusal>) -> usize
    ensures { result ≡ held_place x }
{
    match x {
        Ok(Held::Stored(at)) => at,
        Ok(Held::Unpacked(at)) => at,
        Ok(Held::Absent) => 0,
        Ok(Held::Alone) => 0,
        Err(r) => refusal_place(r),
    }
}

// A lay-down answer's number, length and place.
pub fn laid_number(x: Result<usize, Refusal>) -> u32
    ensures { result ≡ laid_number x }
{
    match x {
        Ok(_) => 0,
        Err(r) => refusal_number(r),
    }
}
