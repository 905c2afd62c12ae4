// What a page is and what an element of it is, in numbers. `shape_of`, `kind_of` and `fill_pattern` make no check: they say what the fields
// of any bytes hold, and serve a product that has made the check.
ghost use Rattle.std.specs.Prelude.{◌≡◌, Ok};
ghost use Rattle.header.specs.Fields.{grid_rows, grid_columns, tile_rows, tile_columns, element_count};
ghost use Rattle.header.specs.Element.{element};
ghost use Rattle.page_check.specs.Stages.{check};
ghost use Rattle.store.specs.Description.{numbers_of_page, described, described_number, specified_by, specified, specified_number};

use answer::Refusal;
use geometry::{sizes, tiles};
use header::{entries, fields};
use record::chain;

// The sides of the grid and of a tile, and the number of elements.
#[derive(Clone, Copy)]
pub struct Shape {
    pub rows: u32,
    pub columns: u32,
    pub tile_rows: u32,
    pub tile_columns: u32,
    pub elements: u32,
}

// A page's numbers. `tile_bytes` is those of a tile that is stored uncompressed, all its elements together; `front` is where the
// header ends, and the length of the identification block and the header record; `checksums` is 1 where they are on, else 0.
#[derive(Clone, Copy)]
pub struct PageNumbers {
    pub shape: Shape,
    pub tiles_down: u32,
    pub tiles_across: u32,
    pub tile_bytes: u64,
    pub front: usize,
    pub tile_records: usize,
    pub metadata_records: usize,
    pub time_modified: u64,
    pub checksums: u32,
}

// An element's numbers: its type code, the bit pattern of its fill value, and the places and the lengths of its name and of its unit of
// measure.
#[derive(Clone, Copy)]
pub struct ElementNumbers {
    pub kind: u32,
    pub fill: u32,
    pub name: usize,
    pub name_length: usize,
    pub unit: usize,
    pub unit_length: usize,
}

// What the header's fields say of the grid.
pub fn shape_of(file: &[u8]) -> Shape
    ensures rows { result.rows ≡ grid_rows file.now }
    ensures columns { result.columns ≡ grid_columns file.now }
    ensures tile_rows { result.tile_rows ≡ tile_rows file.now }
    ensures tile_columns { result.tile_columns ≡ tile_columns file.now }
    ensures elements { result.elements ≡ element_count file.now }
{
    Shape {
        rows: fields::grid_rows(file),
        columns: fields::grid_columns(file),
        tile_rows: fields::tile_rows(file),
        tile_columns: fields::tile_columns(file),
        elements: fields::element_count(file),
    }
}

// The type code of element e.
pub fn kind_of(file: &[u8], e: u64) -> u32
    ensures { result ≡ (element file.now e).kind }
{
    let x = entries::element(file, e as usize);
    x.kind
}

// The bit pattern of its fill value.
pub fn fill_pattern(file: &[u8], e: u64) -> u32
    ensures { result ≡ (element file.now e).fill }
{
    let x = entries::element(file, e as usize);
    x.fill
}

// The numbers of a page that the check accepts.
fn numbers_of_page(file: &[u8]) -> PageNumbers
    requires { check file.now ≡ Ok tt }
    ensures { result ≡ numbers_of_page file.now }
{
    let shape = shape_of(file);
    let tiles_down = tiles::tiles_down(file);
    let tiles_across = tiles::tiles_across(file);
    let tile_bytes = sizes::tile_bytes(file);
    let front = chain::header_end(file);
    let tile_records = chain::record_count(file, record::TILE);
    let metadata_records = chain::record_count(file, record::METADATA);
    let time_modified = fields::time_modified(file);
    let checksums = fields::checksum_enabled(file);
    PageNumbers {
        shape,
        tiles_down,
        tiles_across,
        tile_bytes,
        front,
        tile_records,
        metadata_records,
        time_modified,
        checksums,
    }
}

// What a page is. Its time is one check, and two passes over the records.
pub fn describe(file: &[u8]) -> Result<PageNumbers, Refusal>
    ensures { result ≡ described file.now }
{
    page_check::check(file)?;
    Ok(numbers_of_page(file))
}

// 0 where a page is described, else the refusal's number.
pub fn described_number(x: Result<PageNumbers, Refusal>) -> u32
    ensures { result ≡ described_number x }
{
    match x {
        Ok(_) => 0,
        Err(r) => answer::refusal_number(r),
    }
}

// What element e is, on any bytes; 10 where there is none.
fn specify_by(file: &[u8], e: u64) -> Result<ElementNumbers, Refusal>
    ensures { result ≡ specified_by file.now e }
{
    if fields::element_count(file) as u64 <= e {
        return Err(Refusal::OutsideGrid);
    }
    let x = entries::element(file, e as usize);
    Ok(ElementNumbers {
        kind: x.kind,
        fill: x.fill,
        name: x.name,
        name_length: x.name_length,
        unit: entries::unit_place(file, e as usize),
        unit_length: entries::unit_length(file, e as usize),
    })
}

// What an element of a page is.
pub fn specify(file: &[u8], e: u64) -> Result<ElementNumbers, Refusal>
    ensures { result ≡ specified file.now e }
{
    page_check::check(file)?;
    specify_by(file, e)
}

// 0 where an element is specified, else the refusal's number.
pub fn specified_number(x: Result<ElementNumbers, Refusal>) -> u32
    ensures { result ≡ specified_number x }
{
    match x {
        Ok(_) => 0,
        Err(r) => answer::refusal_number(r),
    }
}
