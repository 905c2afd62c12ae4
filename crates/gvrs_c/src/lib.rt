// The C interface: what a C program calls, declared in include/gvrs.h. A slice is a pointer and a count of elements.
#![tactic(auto)]

mod compare;
mod correction;
mod deed;
mod description;
mod explanation;
mod front;
mod rectangle;
mod said;
mod sheet;
mod squeezing;

ghost use Rattle.std.specs.Prelude.{◌≡◌, [], ◌∷◌, length, set, eqb};
ghost use Rattle.answer.specs.Refusals.{verdict_number, verdict_place};
ghost use Rattle.answer.specs.Answers.{cell_kind, content_kind, held_kind, lookup_kind, lookup_number, laid_number};
ghost use Rattle.wire.specs.Pick.{pick};
ghost use Rattle.header.specs.Names.{identifier, longest_name};
ghost use Rattle.utf8.specs.Utf8.{utf8};
ghost use Rattle.check_start.specs.Start.{check_start, needed};
ghost use Rattle.page_check.specs.Stages.{check};
ghost use Rattle.m32.specs.M32.{codes, bytes_next, read_codes};
ghost use Rattle.cells.specs.TileCells.{held_bits, held_count};
ghost use Rattle.cells.specs.Reads.{read_content, read_held};
ghost use Rattle.lay_down.specs.Answer.{laid, laid_out};
ghost use Rattle.wire.specs.Bytes.{put, same_bytes};
ghost use Rattle.wire.specs.Compare.{pairs_read};
ghost use Rattle.listing.specs.Listing.{listing};
ghost use Rattle.store.specs.Lookup.{read_element_named};
ghost use Rattle.gvrs_c.specs.Report.{reported, start_numbers, cell_numbers, content_numbers, held_numbers, laid_report};
ghost use Rattle.gvrs_c.specs.Route.{read_by, meaning_by};

use answer::{Cell, Held, Refusal};
use cells::reads;
use check_start::start;
use header::{fields, names};
use m32::writing;

// A number of an answer at its place in `out`, if `out` is long enough.
pub(crate) fn report(out: &mut [u64], k: usize, v: u64)
    ensures { out.new ≡ set out.old k v }
{
    if k < out.len() {
        out[k] = v;
    }
}

// The check: 0 where the file is accepted, else the refusal's number; out[0] takes the place.
#[unsafe(no_mangle)]
pub extern "C" fn gvrs_check(file: &[u8], out: &mut [u64]) -> u32
    ensures number { result ≡ verdict_number (check file.now) }
    ensures place { out.new ≡ reported (verdict_place (check file.now) ∷ []) out.old }
{
    let verdict = page_check::check(file);
    report(out, 0, answer::verdict_place(verdict) as u64);
    answer::verdict_number(verdict)
}

// How many first bytes the stage needs that answers 16; 0 of another answer.
fn start_needs(first: &[u8], length: usize, number: u32) -> usize
    ensures { result ≡ pick (eqb number 16) (needed first.now length) 0 }
{
    if number == 16 {
        return start::bytes_needed(first, length);
    }
    0
}

// Stages 1 to 5, from a file's first bytes and its stated length: 0 where they accept, else the refusal's number; out[0] takes the
// place, out[1] how many first bytes are needed where the answer is 16, else 0.
#[unsafe(no_mangle)]
pub extern "C" fn gvrs_check_start(first: &[u8], length: u64, out: &mut [u64]) -> u32
    ensures number { result ≡ verdict_number (check_start first.now length) }
    ensures place { out.new ≡ reported (start_numbers first.now length) out.old }
{
    let n = length as usize;
    let verdict = start::check_start(first, n);
    let number = answer::verdict_number(verdict);
    report(out, 0, answer::verdict_place(verdict) as u64);
    report(out, 1, start_needs(first, n, number) as u64);
    number
}

// The second half of the check, of the whole file; it answers as the check does.
#[unsafe(no_mangle)]
pub extern "C" fn gvrs_check_rest(file: &[u8], out: &mut [u64]) -> u32
    ensures number { result ≡ verdict_number (check file.now) }
    ensures place { out.new ≡ reported (verdict_place (check file.now) ∷ []) out.old }
{
    let verdict = page_check::check_rest(file);
    report(out, 0, answer::verdict_place(verdict) as u64);
    answer::verdict_number(verdict)
}

// A cell by a route: 1 the walk, 2 the walk without stage 9, every other number the directory.
fn read_by(
    file: &[u8],
    compressor: u32,
    row: u64,
    column: u64,
    element: u64,
    route: u32,
) -> Result<Cell, Refusal>
    ensures { result ≡ read_by route file.now compressor row column element }
{
    if route == 1 {
        return reads::read_by_walk(file, compressor, row, column, element);
    }
    if route == 2 {
        return reads::read_by_records(file, compressor, row, column, element);
    }
    reads::read_by_directory(file, compressor, row, column, element)
}

// What `out` takes of a cell.
fn cell_numbers(x: Result<Cell, Refusal>) -> [u64; 5]
    ensures { result ≡ cell_numbers x }
{
    [
        answer::cell_type(x) as u64,
        answer::cell_bits(x) as u64,
        answer::cell_place(x) as u64,
        answer::cell_tile(x),
        answer::cell_inside(x),
    ]
}

// 32 where the cell is stored, 33 where it is fill, 34 where it is unpacked, else the refusal's number; `out` takes the type code, the
// bits, the place, the tile's index and the number inside the tile. By every route it is the check's refusal or the cell's meaning.
fn tell_cell(
    file: &[u8],
    compressor: u32,
    row: u64,
    column: u64,
    element: u64,
    route: u32,
    out: &mut [u64],
) -> u32
    ensures kind { result ≡ cell_kind (read_by route file.now compressor row column element) }
    ensures value { out.new ≡ reported (cell_numbers (read_by route file.now compressor row column element)) out.old }
    ensures meaning { (result ≡ cell_kind (meaning_by route file.now compressor row column element)) × (out.new ≡ reported (cell_numbers (meaning_by route file.now compressor row column element)) out.old) }
{
    let cell = read_by(file, compressor, row, column, element, route);
    let numbers = cell_numbers(cell);
    description::report_all(out, &numbers);
    answer::cell_kind(cell)
}

// A compressor index that no content has.
const NO_COMPRESSOR: u32 = 256;

// A cell, where compressed content is not unpacked.
#[unsafe(no_mangle)]
pub extern "C" fn gvrs_cell(
    file: &[u8],
    row: u64,
    column: u64,
    element: u64,
    route: u32,
    out: &mut [u64],
) -> u32
    ensures kind { result ≡ cell_kind (read_by route file.now 256 row column element) }
    ensures value { out.new ≡ reported (cell_numbers (read_by route file.now 256 row column element)) out.old }
    ensures meaning { (result ≡ cell_kind (meaning_by route file.now 256 row column element)) × (out.new ≡ reported (cell_numbers (meaning_by route file.now 256 row column element)) out.old) }
{
    tell_cell(file, NO_COMPRESSOR, row, column, element, route, out)
}

// A cell, where compressed content of the index named is unpacked.
#[unsafe(no_mangle)]
pub extern "C" fn gvrs_cell_with(
    file: &[u8],
    row: u64,
    column: u64,
    element: u64,
    route: u32,
    compressor: u32,
    out: &mut [u64],
) -> u32
    ensures kind { result ≡ cell_kind (read_by route file.now compressor row column element) }
    ensures value { out.new ≡ reported (cell_numbers (read_by route file.now compressor row column element)) out.old }
    ensures meaning { (result ≡ cell_kind (meaning_by route file.now compressor row column element)) × (out.new ≡ reported (cell_numbers (meaning_by route file.now compressor row column element)) out.old) }
{
    tell_cell(file, compressor, row, column, element, route, out)
}

// How many cells an answer about all of them is of.
fn held_count(file: &[u8], held: Result<Held, Refusal>) -> u64
    ensures { result ≡ held_count file.now held }
{
    match held {
        Ok(held) => match held {
            Held::Stored(_) => fields::tile_rows(file) as u64 * fields::tile_columns(file) as u64,
            Held::Unpacked(_) => fields::tile_rows(file) as u64 * fields::tile_columns(file) as u64,
            Held::Absent => 0,
            Held::Alone => 0,
        },
        Err(_) => 0,
    }
}

// All cells of an element in a tile: 32 stored, 34 unpacked, 33 where the tile is absent, else the refusal's number; `out` takes where
// their content starts, or the refusal's place, and their number. `cells` takes their bits, row by row, where they fit whole, and what
// stands behind them stays; else it is as it was.
#[unsafe(no_mangle)]
pub extern "C" fn gvrs_unpack(
    file: &[u8],
    tile: u64,
    element: u64,
    compressor: u32,
    cells: &mut [u32],
    out: &mut [u64],
) -> u32
    ensures kind { result ≡ held_kind (read_held file.now compressor tile element) }
    ensures told { out.new ≡ reported (held_numbers file.now (read_held file.now compressor tile element)) out.old }
    ensures holds { cells.new ≡ put cells.old 0 (held_bits file.now element (read_held file.now compressor tile element)) }
{
    let held = reads::hold(file, compressor, tile, element, cells);
    report(out, 0, answer::held_place(held) as u64);
    report(out, 1, held_count(file, held));
    answer::held_kind(held)
}

// The M32 codes of numbers: their length. `bytes` takes them where they fit, and what stands behind them stays; else it is as it was.
#[unsafe(no_mangle)]
pub extern "C" fn gvrs_m32_write(numbers: &[u32], bytes: &mut [u8]) -> u64
    ensures long { result ≡ length (codes numbers.now) }
    ensures holds { bytes.new ≡ put bytes.old 0 (codes numbers.now) }
{
    writing::write(numbers, bytes) as u64
}

// The numbers of as many whole M32 codes from the start as stand there and as `numbers` has room for: how many; out[0] takes the bytes
// that they take.
#[unsafe(no_mangle)]
pub extern "C" fn gvrs_m32_read(bytes: &[u8], numbers: &mut [u32], out: &mut [u64]) -> u64
    ensures count { result ≡ length (read_codes (bytes_next bytes.now) (length numbers.old) 0).numbers }
    ensures taken { out.new ≡ reported ((read_codes (bytes_next bytes.now) (length numbers.old) 0).behind ∷ []) out.old }
    ensures holds { numbers.new ≡ put numbers.old 0 (read_codes (bytes_next bytes.now) (length numbers.old) 0).numbers }
{
    let read = m32::read(bytes, numbers);
    let taken = read.bytes;
    let count = read.numbers;
    report(out, 0, taken as u64);
    count as u64
}

// 32 where the content is present, 33 where the tile is absent, else the refusal's number; `out` takes the start or the
// refusal's place, and the length.
#[unsafe(no_mangle)]
pub extern "C" fn gvrs_content(file: &[u8], tile: u64, element: u64, out: &mut [u64]) -> u32
    ensures kind { result ≡ content_kind (read_content file.now tile element) }
    ensures part { out.new ≡ reported (content_numbers (read_content file.now tile element)) out.old }
{
    let content = reads::content(file, tile, element);
    report(out, 0, answer::content_place(content) as u64);
    report(out, 1, answer::content_length(content) as u64);
    answer::content_kind(content)
}

// The page's length where a lay-down or a correction is done, and the place of its refusal.
pub(crate) fn laid_report(x: Result<usize, Refusal>) -> usize
    ensures { result ≡ laid_report x }
{
    match x {
        Ok(n) => n,
        Err(r) => answer::refusal_place(r),
    }
}

// 0 where a page is laid down or corrected, else the refusal's number; out[0] takes the page's length, or the refusal's place.
pub(crate) fn tell_laid(x: Result<usize, Refusal>, out: &mut [u64]) -> u32
    ensures number { result ≡ laid_number x }
    ensures length { out.new ≡ reported (laid_report x ∷ []) out.old }
{
    report(out, 0, laid_report(x) as u64);
    answer::laid_number(x)
}

// The same with a second number, which out[1] takes.
pub(crate) fn tell_laid_and(x: Result<usize, Refusal>, more: usize, out: &mut [u64]) -> u32
    ensures number { result ≡ laid_number x }
    ensures numbers { out.new ≡ reported (laid_report x ∷ more ∷ []) out.old }
{
    report(out, 0, laid_report(x) as u64);
    report(out, 1, more as u64);
    answer::laid_number(x)
}

// Lays down a page. The buffer holds the file and behind it what stood there, or is as it was.
#[unsafe(no_mangle)]
pub extern "C" fn gvrs_lay_down(
    front: &[u8],
    time: u64,
    indexes: &[u32],
    cells: &[u8],
    file: &mut [u8],
    out: &mut [u64],
) -> u32
    ensures number { result ≡ laid_number (laid front.now time indexes.now cells.now (length file.old)) }
    ensures length { out.new ≡ reported (laid_report (laid front.now time indexes.now cells.now (length file.old)) ∷ []) out.old }
    ensures buffer { file.new ≡ laid_out front.now time indexes.now cells.now file.old }
{
    let laid = lay_down::lay_down(front, time, indexes, cells, file);
    tell_laid(laid, out)
}

// The listing's length. The text takes it where it fits, and what stands behind it stays; else the text is as it was.
#[unsafe(no_mangle)]
pub extern "C" fn gvrs_list(file: &[u8], text: &mut [u8]) -> u64
    ensures long { result ≡ length (listing file.now) }
    ensures holds { text.new ≡ put text.old 0 (listing file.now) }
{
    listing::list(file, text) as u64
}

// 1 if the bytes are a name that an element or a metadata record may have, else 0.
#[unsafe(no_mangle)]
pub extern "C" fn gvrs_is_identifier(name: &[u8]) -> u32
    ensures { result ≡ pick (identifier longest_name name.now) 1 0 }
{
    if names::is_identifier(name, names::LONGEST) {
        return 1;
    }
    0
}

// 1 if the bytes are UTF-8 by RFC 3629, as every label, description and unit has to be, else 0.
#[unsafe(no_mangle)]
pub extern "C" fn gvrs_is_utf8(text: &[u8]) -> u32
    ensures { result ≡ pick (utf8 text.now) 1 0 }
{
    if utf8::is_utf8(text) {
        return 1;
    }
    0
}

// 1 if two names are equal, byte for byte, else 0; out[0] takes how many byte pairs were read.
#[unsafe(no_mangle)]
pub extern "C" fn gvrs_compare_names(a: &[u8], b: &[u8], out: &mut [u64]) -> u32
    ensures equal { result ≡ pick (same_bytes a.now b.now) 1 0 }
    ensures pairs { out.new ≡ reported (pairs_read a.now b.now ∷ []) out.old }
{
    let compared = wire::compare(a, b);
    report(out, 0, compared.pairs as u64);
    if compared.equal {
        return 1;
    }
    0
}

// 32 where an element has the name, 33 where none has, else the refusal's number; out[0] takes the element's number, 0, or the
// refusal's place.
#[unsafe(no_mangle)]
pub extern "C" fn gvrs_find_element(file: &[u8], name: &[u8], out: &mut [u64]) -> u32
    ensures kind { result ≡ lookup_kind (read_element_named file.now name.now) }
    ensures number { out.new ≡ reported (lookup_number (read_element_named file.now name.now) ∷ []) out.old }
{
    let found = store::find_element(file, name);
    report(out, 0, answer::lookup_number(found) as u64);
    answer::lookup_kind(found)
}
