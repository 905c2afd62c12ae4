// Reads on bytes and held positions, which may be any numbers: one is used only where it is the bytes' own.
ghost use Rattle.std.specs.Prelude.{◌≡◌, ◌+◌, ◌-◌};
ghost use Rattle.wire.specs.Pick.{pick};
ghost use Rattle.wire.specs.Bytes.{part, part_at};
ghost use Rattle.answer.specs.Answers.{content_place, content_length};
ghost use Rattle.cells.specs.Reads.{read_meaning, read_content};
ghost use Rattle.store.specs.Opened.{held_end, held_directory, trusted, walk_from, through_directory, page_content, page_read, plain_read};

use answer::{Cell, Extent, Refusal};
use cells::lookups;
use header::fields;
use record::{chain, frame};
use tile_routes::Route;

// What a page holds of its bytes: where the header ends, and the tile directory's reference.
#[derive(Clone, Copy)]
pub struct Positions {
    pub header_end: usize,
    pub directory: u64,
}

// Both, by one check; 0 and 0 where it refuses the bytes.
pub fn held_by(file: &[u8]) -> Positions
    ensures { (result.header_end ≡ held_end file.now) × (result.directory ≡ held_directory file.now) }
{
    match page_check::check(file) {
        Err(_) => Positions {
            header_end: 0,
            directory: 0,
        },
        Ok(()) => Positions {
            header_end: chain::header_end(file),
            directory: fields::tile_directory_reference(file),
        },
    }
}

// A held number where it is the bytes' own, else the bytes' own.
fn trust(held: u64, own: u64) -> u64
    ensures { result ≡ trusted held own }
{
    if held == own {
        return held;
    }
    own
}

// The walk from a held header's end.
fn walk_from(file: &[u8], end: usize) -> Route
    ensures { result ≡ walk_from file.now end }
{
    Route::Walk(trust(end as u64, chain::header_end(file) as u64) as usize)
}

// The route through a held tile directory.
fn through_directory(file: &[u8], directory: u64) -> Route
    ensures { result ≡ through_directory file.now directory }
{
    Route::Directory(frame::record_of(trust(directory, fields::tile_directory_reference(file))))
}

// By which of the two a page's read goes.
fn route_of(file: &[u8], end: usize, directory: u64, walk: bool) -> Route
    ensures { result ≡ pick walk (walk_from file.now end) (through_directory file.now directory) }
{
    if walk {
        return walk_from(file, end);
    }
    through_directory(file, directory)
}

// A cell by a compressor index and either route. It is the check's refusal or the cell's meaning.
pub fn read_from(
    file: &[u8],
    compressor: u32,
    end: usize,
    directory: u64,
    row: u64,
    column: u64,
    e: u64,
    walk: bool,
) -> Result<Cell, Refusal>
    ensures held { result ≡ page_read file.now compressor end directory row column e walk }
    ensures plain { result ≡ plain_read file.now compressor row column e walk }
    ensures meaning { result ≡ read_meaning file.now compressor row column e }
{
    page_check::check(file)?;
    let route = route_of(file, end, directory, walk);
    lookups::look_up(file, compressor, route, row, column, e)
}

// Where an element's content stands, through a held tile directory: present, absent, or refused and why. As a part of the file an absent
// one and a refused one are both empty.
pub fn content_at(file: &[u8], directory: u64, tile: u64, e: u64) -> Result<Option<Extent>, Refusal>
    ensures held { result ≡ page_content file.now directory tile e }
    ensures plain { result ≡ read_content file.now tile e }
{
    page_check::check(file)?;
    lookups::look_up_content(file, through_directory(file, directory), tile, e)
}

// The same as that part of the file itself; the empty part where it is refused or absent.
pub fn content_from(file: &[u8], directory: u64, tile: u64, e: u64) -> &[u8]
    ensures held { result.now ≡ part file.now (content_place (page_content file.now directory tile e)) (content_length (page_content file.now directory tile e)) }
    ensures plain { result.now ≡ part file.now (content_place (read_content file.now tile e)) (content_length (read_content file.now tile e)) }
    ensures block { result.ref_ptr.0 ≡ file.entry.ref_ptr.0 }
    ensures offset { result.ref_ptr.1 ≡ file.entry.ref_ptr.1 + part_at file.now (content_place (read_content file.now tile e)) (content_length (read_content file.now tile e)) }
{
    let x = content_at(file, directory, tile, e);
    wire::part_of(file, answer::content_place(x), answer::content_length(x))
}
