// The public face: the opened page, and many reads after one check. A page keeps hold of the file's own bytes, of the compressor index
// that its opener named, and of two positions that the bytes give, from which the two routes start. Whoever makes one may put any
// numbers there: a read on it answers as one on the bytes with that index, whatever the positions are.
//
// Opening refuses nothing: a read gives the check's refusal, whatever page it is asked on. Of bytes that are refused 0 is held, where
// neither a record nor a directory can start.
//
// A read takes its route as a bool. There are two behind the whole check, and no number is left over that is no route. The walk
// without stage 9 is for files whose directories are at fault, and such bytes have no positions that a page holds; `cells` has it.
//
// A read makes the check each time. A product that makes one check and then asks for many cells goes by `many`: its look-ups do not
// repeat the check, are no reads, and have names that say so. The C interface does not pass them on.
//
// `cell_of` and `content_of` ask the same of bytes, without a page, so that no proof of a product above goes through one.
#![tactic(auto)]

pub mod description;
mod elements;
pub mod many;
pub mod named;
pub mod pieces;
pub mod reads;

ghost use Rattle.std.specs.Prelude.{◌≡◌, ◌+◌};
ghost use Rattle.wire.specs.Bytes.{part, part_at};
ghost use Rattle.answer.specs.Answers.{content_place, content_length};
ghost use Rattle.page_check.specs.Stages.{check};
ghost use Rattle.cells.specs.Reads.{read_meaning, read_content};
ghost use Rattle.store.specs.Opened.{held_end, held_directory, plain_read};
ghost use Rattle.store.specs.Lookup.{read_element_named};

use answer::{Cell, Refusal};

#[derive(Clone, Copy)]
pub struct Page<'a> {
    pub file: &'a [u8],
    // The compressor index: compressed content is unpacked only where it has this one. None has one above 255.
    pub compressor: u32,
    // Where the header ends, and the tile directory's reference.
    pub header_end: usize,
    pub directory: u64,
}

// Opens any bytes with any compressor index, by one check. As positions it holds 0 and 0 where that refuses the bytes.
pub fn open<'a>(file: &'a [u8], compressor: u32) -> Page<'a>
    ensures { (result.file ≡ file.entry) × ((result.compressor ≡ compressor) × ((result.header_end ≡ held_end file.now) × (result.directory ≡ held_directory file.now))) }
{
    let held = reads::held_by(file);
    Page {
        file,
        compressor,
        header_end: held.header_end,
        directory: held.directory,
    }
}

// A cell by the page's compressor index, by the walk or through the directory.
pub fn read<'a>(p: Page<'a>, row: u64, column: u64, e: u64, walk: bool) -> Result<Cell, Refusal>
    ensures route { result ≡ plain_read p.entry.file.now p.entry.compressor row column e walk }
    ensures meaning { result ≡ read_meaning p.entry.file.now p.entry.compressor row column e }
{
    reads::read_from(
        p.file,
        p.compressor,
        p.header_end,
        p.directory,
        row,
        column,
        e,
        walk,
    )
}

// The uncompressed content of an element in a tile, as that part of the file itself; the empty part where it is refused or absent.
pub fn content_part<'a>(p: Page<'a>, tile: u64, e: u64) -> &'a [u8]
    ensures holds { result.now ≡ part p.entry.file.now (content_place (read_content p.entry.file.now tile e)) (content_length (read_content p.entry.file.now tile e)) }
    ensures block { result.ref_ptr.0 ≡ p.entry.file.ref_ptr.0 }
    ensures offset { result.ref_ptr.1 ≡ p.entry.file.ref_ptr.1 + part_at p.entry.file.now (content_place (read_content p.entry.file.now tile e)) (content_length (read_content p.entry.file.now tile e)) }
{
    reads::content_from(p.file, p.directory, tile, e)
}

// A cell of bytes and an index that no page holds, so that no proof about a caller goes through one.
pub fn cell_of(
    file: &[u8],
    compressor: u32,
    row: u64,
    column: u64,
    e: u64,
    walk: bool,
) -> Result<Cell, Refusal>
    ensures route { result ≡ plain_read file.now compressor row column e walk }
    ensures meaning { result ≡ read_meaning file.now compressor row column e }
{
    if walk {
        return cells::reads::read_by_walk(file, compressor, row, column, e);
    }
    cells::reads::read_by_directory(file, compressor, row, column, e)
}

// An element's content, of bytes that no page holds, as that part of them.
pub fn content_of(file: &[u8], tile: u64, e: u64) -> &[u8]
    ensures holds { result.now ≡ part file.now (content_place (read_content file.now tile e)) (content_length (read_content file.now tile e)) }
    ensures block { result.ref_ptr.0 ≡ file.entry.ref_ptr.0 }
    ensures offset { result.ref_ptr.1 ≡ file.entry.ref_ptr.1 + part_at file.now (content_place (read_content file.now tile e)) (content_length (read_content file.now tile e)) }
{
    cells::reads::content_part(file, tile, e)
}

// The check, for a product that asks many things behind one.
pub fn check(file: &[u8]) -> Result<(), Refusal>
    ensures { result ≡ check file.now }
{
    page_check::check(file)
}

// The number of the element with a name, which is any bytes. Its time is one check, and a comparison with the names of at most 16
// elements.
pub fn find_element(file: &[u8], name: &[u8]) -> Result<Option<usize>, Refusal>
    ensures { result ≡ read_element_named file.now name.now }
{
    page_check::check(file)?;
    elements::first_named(file, name)
}
