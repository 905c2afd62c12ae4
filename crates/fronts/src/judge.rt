// Stages 3 and 4, asked of a description: the bytes of its front stand nowhere while it is judged.
ghost use Rattle.std.specs.Prelude.{◌≡◌, true, List, ℕ, min, ◌+◌, ◌-◌, ◌*◌, ◌/◌, ◌≤◌, ◌<◌, length, get_or};
ghost use Rattle.wire.specs.Tests.{all_below};
ghost use Rattle.wire.specs.Bytes.{part};
ghost use Rattle.header.specs.Element.{most_elements};
ghost use Rattle.geometry.specs.Sizes.{uncompressed};
ghost use Rattle.check_header.specs.Ceilings.{most_file_bytes, most_tile_side};
ghost use Rattle.fronts.specs.Front.{front_of};
ghost use Rattle.fronts.specs.Judged.{names_apart, texts_told, element_told, elements_told, label_told, header_told, counts_allowed, ceilings_told};
ghost use Rattle.fronts.specs.Given.{stated_by, method_at, described_by};
ghost use Rattle.fronts.specs.Writing.{tile_counted, Summed, Counted, sides_of, told, allowed};

use crate::sides::Sides;
use crate::{counts, entries};
use header::names;

// The ceilings: elements, tiles, uncompressed bytes of one tile.
const MOST_ELEMENTS: usize = header::entries::MOST_ELEMENTS as usize;

const MOST_TILES: u64 = 65536;

const MOST_TILE_BYTES: u64 = 1048576;

// Whether the names of two elements differ.
fn names_apart(elements: &[u32], texts: &[u8], e: usize, i: usize) -> bool
    requires { Summed elements.now (e + 1) × (i < e) }
    ensures { result ≡ names_apart (stated_by elements.now texts.now) e i }
{
    let x = entries::numbers_at(elements, i);
    let y = entries::numbers_at(elements, e);
    let at = counts::texts_before(elements, i);
    let place = counts::texts_before(elements, e);
    let n = x.name as usize;
    let m = y.name as usize;
    if names::same_name(texts, at, n, texts, place, m) {
        return false;
    }
    true
}

// Whether no earlier element has the name of element e.
fn name_new(elements: &[u32], texts: &[u8], e: usize) -> bool
    requires { Summed elements.now (e + 1) }
    ensures { result ≡ all_below e (names_apart (stated_by elements.now texts.now) e) }
{
    (0..e).all(|i| names_apart(elements, texts, e, i))
}

// Whether the label, the description and the unit of element e are UTF-8.
fn texts_told(elements: &[u32], texts: &[u8], e: usize) -> bool
    requires { Summed elements.now (e + 1) }
    ensures { result ≡ texts_told (stated_by elements.now texts.now e) }
{
    let x = entries::numbers_at(elements, e);
    let label = counts::texts_before(elements, e) + x.name as usize;
    let description = label + x.label as usize;
    let unit = description + x.description as usize;
    if utf8::is_utf8(wire::part_of(texts, label, x.label as usize)) {
        if utf8::is_utf8(wire::part_of(texts, description, x.description as usize)) {
            return utf8::is_utf8(wire::part_of(texts, unit, x.unit as usize));
        }
    }
    false
}

// The type, the name and the texts of element e.
fn element_told(elements: &[u32], texts: &[u8], e: usize) -> bool
    requires { Summed elements.now (e + 1) }
    ensures { result ≡ element_told (stated_by elements.now texts.now) e }
{
    let x = entries::numbers_at(elements, e);
    if entries::SHORT < x.kind {
        return false;
    }
    let at = counts::texts_before(elements, e);
    let n = x.name as usize;
    if names::identifier_at(texts, at, n, names::LONGEST) {
        if name_new(elements, texts, e) {
            return texts_told(elements, texts, e);
        }
    }
    false
}

// The first n elements, one after the other.
fn each_told(elements: &[u32], texts: &[u8], n: usize) -> bool
    requires { Summed elements.now n }
    ensures { result ≡ all_below n (element_told (stated_by elements.now texts.now)) }
{
    (0..n).all(|e| element_told(elements, texts, e))
}

// Of n elements those that a check reads.
fn elements_read(n: usize) -> usize
    ensures { result ≡ min n most_elements }
{
    n.min(MOST_ELEMENTS)
}

// The elements, n of them.
fn elements_told(elements: &[u32], texts: &[u8], n: usize) -> bool
    requires { Summed elements.now n }
    ensures { result ≡ elements_told n (stated_by elements.now texts.now) }
{
    if n < 1 {
        return false;
    }
    each_told(elements, texts, elements_read(n))
}

// The product label, where there are at most 16 elements.
fn label_told(n: usize, label: &[u8]) -> bool
    ensures { result ≡ label_told n label.now }
{
    if MOST_ELEMENTS < n {
        return true;
    }
    utf8::is_utf8(label)
}

// The product label, where it stands among the texts.
fn label_among(page: &[u32], elements: &[u32], texts: &[u8]) -> bool
    requires { Counted page.now elements.now }
    ensures { result ≡ label_told (length elements.now / 14) (part texts.now (method_at page.now elements.now (length page.now - 6)) (get_or page.now 5 0)) }
{
    let n = elements.len() / 14;
    let names = counts::methods_before(page, page.len() - 6);
    let at = counts::texts_before(elements, n) + names;
    let long = wire::number_in(page, 5) as usize;
    label_told(n, wire::part_of(texts, at, long))
}

// Stage 3.
pub(crate) fn header_told(page: &[u32], elements: &[u32], texts: &[u8]) -> bool
    requires { Counted page.now elements.now }
    ensures { (u : List ℕ) → result ≡ header_told (described_by page.now u elements.now texts.now) }
{
    let n = elements.len() / 14;
    if Sides::of(page).are_told() {
        if 1 < wire::number_in(page, 4) {
            return false;
        }
        if elements_told(elements, texts, n) {
            return label_among(page, elements, texts);
        }
    }
    false
}

// The uncompressed bytes of an element of a type code in a tile.
fn element_in_tile(height: u32, width: u32, kind: u8) -> u64
    requires { (height ≤ most_tile_side) × (width ≤ most_tile_side) }
    ensures is { result ≡ uncompressed height width kind }
    ensures small { result ≤ 67108864 }
{
    let cells = height as u64 * (width as u64);
    cells * (header::entries::cell_size(kind as u32) as u64)
}

// The uncompressed bytes of the first n elements in a tile.
fn tile_told(elements: &[u32], n: usize, height: u32, width: u32) -> u64
    requires { (n * 14 ≤ length elements.now) × ((n ≤ most_elements) × ((height ≤ most_tile_side) × (width ≤ most_tile_side))) }
    ensures { result ≡ tile_counted elements.now n height width }
{
    let mut sum: u64 = 0;
    for e in 0..n {
        let x = entries::numbers_at(elements, e);
        sum += element_in_tile(height, width, x.kind);
    }
    sum
}

// The number of tiles, the number of elements and the bytes of a tile against their ceilings.
fn counts_allowed(elements: &[u32], sides: Sides) -> bool
    requires { (told sides ≡ true) × (allowed sides ≡ true) }
    ensures { (ts : List ℕ) → result ≡ counts_allowed sides.rows sides.columns sides.tile_rows sides.tile_columns (length elements.now / 14) (stated_by elements.now ts) }
{
    let n = elements.len() / 14;
    if MOST_TILES < sides.tiles() {
        return false;
    }
    if MOST_ELEMENTS < n {
        return false;
    }
    if MOST_TILE_BYTES < tile_told(elements, n, sides.tile_rows, sides.tile_columns) {
        return false;
    }
    true
}

// Stage 4, behind stage 3, of a front that is no longer than a file may be.
pub(crate) fn ceilings_told(page: &[u32], elements: &[u32]) -> bool
    requires { told (sides_of page.now) ≡ true }
    ensures { (u ts : List ℕ) → length (front_of (described_by page.now u elements.now ts)) ≤ most_file_bytes → result ≡ ceilings_told (described_by page.now u elements.now ts) }
{
    let sides = Sides::of(page);
    if sides.are_allowed() {
        return counts_allowed(elements, sides);
    }
    false
}
