// What a page is and what an element of it is, as numbers in `out`.
ghost use Rattle.std.specs.Prelude.{◌≡◌};
ghost use Rattle.store.specs.Description.{described, described_number, specified, specified_number};
ghost use Rattle.says.specs.Further.{said_of_page, said_of_element};
ghost use Rattle.gvrs_c.specs.Report.{reported};
ghost use Rattle.gvrs_c.specs.Description.{numbers_in_order, page_numbers, numbers_said, page_numbers_said, element_numbers, element_numbers_said};

use answer::Refusal;
use says::further;
use says::further::PageSaid;
use store::description;
use store::description::{ElementNumbers, PageNumbers};

// All numbers of an answer, as many as `out` has room for.
pub(crate) fn report_all(out: &mut [u64], numbers: &[u64])
    ensures { out.new ≡ reported numbers.now out.old }
{
    let mut k = 0;
    while k < numbers.len() {
        crate::report(out, k, numbers[k]);
        k += 1;
    }
}

// A page's numbers in their order.
fn in_order(x: PageNumbers) -> [u64; 13]
    ensures { result ≡ numbers_in_order x }
{
    let shape = x.shape;
    [
        shape.rows as u64,
        shape.columns as u64,
        shape.tile_rows as u64,
        shape.tile_columns as u64,
        x.tiles_down as u64,
        x.tiles_across as u64,
        shape.elements as u64,
        x.tile_bytes,
        x.front as u64,
        x.tile_records as u64,
        x.metadata_records as u64,
        x.time_modified,
        x.checksums as u64,
    ]
}

// What `out` takes of a page: its numbers; of a refusal its place, and zeros.
fn page_numbers(x: Result<PageNumbers, Refusal>) -> [u64; 13]
    ensures { result ≡ page_numbers x }
{
    match x {
        Ok(p) => in_order(p),
        Err(r) => {
            let place = answer::refusal_place(r) as u64;
            [place, 0, 0, 0, 0, 0, 0, 0, 0, 0, 0, 0, 0]
        }
    }
}

// A page's numbers and the further ones, in their order.
fn all_in_order(x: PageNumbers, y: PageSaid) -> [u64; 21]
    ensures { result ≡ numbers_said x y }
{
    let shape = x.shape;
    [
        shape.rows as u64,
        shape.columns as u64,
        shape.tile_rows as u64,
        shape.tile_columns as u64,
        x.tiles_down as u64,
        x.tiles_across as u64,
        shape.elements as u64,
        x.tile_bytes,
        x.front as u64,
        x.tile_records as u64,
        x.metadata_records as u64,
        x.time_modified,
        x.checksums as u64,
        y.label as u64,
        y.label_length as u64,
        y.uuid as u64,
        y.methods as u64,
        y.raster_space as u64,
        y.coordinate_system as u64,
        y.coordinates as u64,
        y.coordinates_length as u64,
    ]
}

// The same of a page with the further numbers.
fn page_numbers_said(file: &[u8], x: Result<PageNumbers, Refusal>) -> [u64; 21]
    ensures { result ≡ page_numbers_said (said_of_page file.now) x }
{
    match x {
        Ok(p) => {
            let y = further::of_page(file);
            all_in_order(p, y)
        }
        Err(r) => {
            let place = answer::refusal_place(r) as u64;
            [
                place, 0, 0, 0, 0, 0, 0, 0, 0, 0, 0, 0, 0, 0, 0, 0, 0, 0, 0, 0, 0,
            ]
        }
    }
}

// What `out` takes of an element.
fn element_numbers(x: Result<ElementNumbers, Refusal>) -> [u64; 6]
    ensures { result ≡ element_numbers x }
{
    match x {
        Ok(n) => [
            n.kind as u64,
            n.fill as u64,
            n.name as u64,
            n.name_length as u64,
            n.unit as u64,
            n.unit_length as u64,
        ],
        Err(r) => {
            let place = answer::refusal_place(r) as u64;
            [place, 0, 0, 0, 0, 0]
        }
    }
}

// The same of an element with the further numbers.
fn element_numbers_said(file: &[u8], element: u64, x: Result<ElementNumbers, Refusal>) -> [u64; 18]
    ensures { result ≡ element_numbers_said (said_of_element file.now element) x }
{
    match x {
        Ok(n) => {
            let y = further::of_element(file, element);
            let texts = y.texts;
            let coded = y.coded;
            [
                n.kind as u64,
                n.fill as u64,
                n.name as u64,
                n.name_length as u64,
                n.unit as u64,
                n.unit_length as u64,
                texts.label as u64,
                texts.label_length as u64,
                texts.description as u64,
                texts.description_length as u64,
                y.continuous as u64,
                y.minimum as u64,
                y.maximum as u64,
                coded.minimum as u64,
                coded.maximum as u64,
                coded.fill as u64,
                coded.scale as u64,
                coded.offset as u64,
            ]
        }
        Err(r) => {
            let place = answer::refusal_place(r) as u64;
            [place, 0, 0, 0, 0, 0, 0, 0, 0, 0, 0, 0, 0, 0, 0, 0, 0, 0]
        }
    }
}

// What a page is: 0, and `out` takes its thirteen numbers; else the check's refusal, its place and zeros.
#[unsafe(no_mangle)]
pub extern "C" fn gvrs_page(file: &[u8], out: &mut [u64]) -> u32
    ensures number { result ≡ described_number (described file.now) }
    ensures told { out.new ≡ reported (page_numbers (described file.now)) out.old }
{
    let x = description::describe(file);
    let numbers = page_numbers(x);
    report_all(out, &numbers);
    description::described_number(x)
}

// The same with eight numbers more, of what else the header says: 0, and `out` takes the twenty-one numbers; else the check's refusal, its
// place and zeros.
#[unsafe(no_mangle)]
pub extern "C" fn gvrs_page_said(file: &[u8], out: &mut [u64]) -> u32
    ensures number { result ≡ described_number (described file.now) }
    ensures told { out.new ≡ reported (page_numbers_said (said_of_page file.now) (described file.now)) out.old }
{
    let x = description::describe(file);
    let numbers = page_numbers_said(file, x);
    report_all(out, &numbers);
    description::described_number(x)
}

// What an element of a page is: 0, and `out` takes its type code, the bits of its fill, and the places and the lengths of its name and of
// its unit; else the check's refusal, then 10, with its place and zeros.
#[unsafe(no_mangle)]
pub extern "C" fn gvrs_element(file: &[u8], element: u64, out: &mut [u64]) -> u32
    ensures number { result ≡ specified_number (specified file.now element) }
    ensures told { out.new ≡ reported (element_numbers (specified file.now element)) out.old }
{
    let x = description::specify(file, element);
    let numbers = element_numbers(x);
    report_all(out, &numbers);
    description::specified_number(x)
}

// The same with what else the element's entry says: twelve numbers more behind the six.
#[unsafe(no_mangle)]
pub extern "C" fn gvrs_element_said(file: &[u8], element: u64, out: &mut [u64]) -> u32
    ensures number { result ≡ specified_number (specified file.now element) }
    ensures told { out.new ≡ reported (element_numbers_said (said_of_element file.now element) (specified file.now element)) out.old }
{
    let x = description::specify(file, element);
    let numbers = element_numbers_said(file, element, x);
    report_all(out, &numbers);
    description::specified_number(x)
}
