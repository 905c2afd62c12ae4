// Correcting a page where it lies (Req 03): the four calls.
//
// Each takes the page's length n, judges, and then makes its byte stores; a refusal changes nothing. In `on` the calls stand without the
// check of the page, for who makes many calls on a page that was judged once: the page is taken to be such as the call wants it. They
// are total. All of them stop after a number of byte stores (Req 05); the four calls here have enough.
//
// No function can lend the page for reading and write the buffer at once. So what a call needs is read first, by value, and written
// then: judging answers what is to be done, and writing takes it.
#![tactic(auto)]

mod closing;
pub mod judging;
mod lengths;
pub mod on;
mod opening;
mod reading;
mod removing;
pub mod stops;
mod storing;

ghost use Rattle.std.specs.Prelude.{◌≡◌};
ghost use Rattle.correct.specs.Calls.{Call, change_of, answer_by, out_by};

use answer::Refusal;
use edit_walks::Spot;

// What the calls read of a page: the header's flag for checksums and where it ends, and the tile directory: where its record starts,
// how long that is, and whether its references have eight bytes.
#[derive(Clone, Copy)]
struct Layout {
    pub flag: u32,
    pub end: usize,
    pub directory: usize,
    pub long: usize,
    pub wide: bool,
}

// What opening reads besides: whether the tile directory is full, and the tiles of the grid.
#[derive(Clone, Copy)]
struct Grid {
    pub full: bool,
    pub down: u32,
    pub across: u32,
    pub count: u32,
}

// What storing a tile is to do: the record that it is stored over, or where the new one goes; and how long the page then is.
#[derive(Clone, Copy)]
struct Plan {
    pub over: Option<usize>,
    pub spot: Spot,
    pub long: usize,
}

// What is judged of it.
#[derive(Clone, Copy)]
enum Judged {
    Refused(Refusal),
    Planned(Plan),
}

// What a call that stops answers: what the call does, and how many byte stores it has made.
#[derive(Clone, Copy)]
pub struct StoppedCall {
    pub answer: Result<usize, Refusal>,
    pub made: usize,
}

// More byte stores than any call makes.
pub const ALL: usize = 18446744073709551615;

// Opens a page for writing: the buffer, the page's length, the opened time.
pub fn open_page(buf: &mut [u8], n: usize, time: u64) -> Result<usize, Refusal>
    ensures answer { result ≡ answer_by (change_of (Call.Opening time) buf.old n) }
    ensures buffer { buf.new ≡ out_by (change_of (Call.Opening time) buf.old n) buf.old }
{
    let x = stops::open_page_stopped(buf, n, time, ALL);
    x.answer
}

// Stores a whole tile, uncompressed: its index, and the cell bytes of all elements in order, no lengths, no padding.
pub fn store_tile(buf: &mut [u8], n: usize, tile: u64, cells: &[u8]) -> Result<usize, Refusal>
    ensures answer { result ≡ answer_by (change_of (Call.Storing tile cells.now) buf.old n) }
    ensures buffer { buf.new ≡ out_by (change_of (Call.Storing tile cells.now) buf.old n) buf.old }
{
    let x = stops::store_tile_stopped(buf, n, tile, cells, ALL);
    x.answer
}

// Removes a tile. One that is absent stays so.
pub fn remove_tile(buf: &mut [u8], n: usize, tile: u64) -> Result<usize, Refusal>
    ensures answer { result ≡ answer_by (change_of (Call.Removing tile) buf.old n) }
    ensures buffer { buf.new ≡ out_by (change_of (Call.Removing tile) buf.old n) buf.old }
{
    let x = stops::remove_tile_stopped(buf, n, tile, ALL);
    x.answer
}

// Closes a page: the time modified.
pub fn close_page(buf: &mut [u8], n: usize, time: u64) -> Result<usize, Refusal>
    ensures answer { result ≡ answer_by (change_of (Call.Closing time) buf.old n) }
    ensures buffer { buf.new ≡ out_by (change_of (Call.Closing time) buf.old n) buf.old }
{
    let x = stops::close_page_stopped(buf, n, time, ALL);
    x.answer
}
