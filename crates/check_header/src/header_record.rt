// Stage 3: the header record.
ghost use Rattle.std.specs.Prelude.{◌≡◌};
ghost use Rattle.wire.specs.Tests.{all_below};
ghost use Rattle.check_header.specs.HeaderRecord.{length_right, frame_right, positive, sides_right, options_right, names_differ, element_right, elements_right, tail_right, header_right};

use header::{entries, fields, names, tail, texts};
use record::chain;

// The header's length is a multiple of 8, not negative, and ends inside the file.
pub fn length_right(s: &[u8], length: usize) -> bool
    ensures { result ≡ length_right s.now length }
{
    let n = fields::header_length(s);
    if n % 8 != 0 {
        return false;
    }
    if wire::LARGEST_INTEGER < n {
        return false;
    }
    if length < chain::header_end(s) {
        return false;
    }
    true
}

// The header's length is lawful, all of it is among the bytes, and its type is 6.
fn frame_right(s: &[u8], length: usize) -> bool
    ensures { result ≡ frame_right s.now length }
{
    if length_right(s, length) {
        if s.len() < chain::header_end(s) {
            return false;
        }
        if fields::header_type(s) != record::HEADER {
            return false;
        }
        return true;
    }
    false
}

// A count or side is at least 1, and not negative.
fn is_positive(x: u32) -> bool
    ensures { result ≡ positive x }
{
    if x < 1 {
        return false;
    }
    if wire::LARGEST_INTEGER < x {
        return false;
    }
    true
}

pub fn sides_right(s: &[u8]) -> bool
    ensures { result ≡ sides_right s.now }
{
    if is_positive(fields::grid_rows(s)) {
        if is_positive(fields::grid_columns(s)) {
            if is_positive(fields::tile_rows(s)) {
                return is_positive(fields::tile_columns(s));
            }
        }
    }
    false
}

fn options_right(s: &[u8]) -> bool
    ensures { result ≡ options_right s.now }
{
    if 1 < fields::checksum_enabled(s) {
        return false;
    }
    if 2 < fields::raster_space(s) {
        return false;
    }
    if 2 < fields::coordinate_system(s) {
        return false;
    }
    true
}

// Whether the names of two elements differ.
fn names_differ(s: &[u8], e: usize, d: usize) -> bool
    ensures { result ≡ names_differ s.now e d }
{
    let x = entries::element(s, d);
    let y = entries::element(s, e);
    if names::same_name(s, x.name, x.name_length, s, y.name, y.name_length) {
        return false;
    }
    true
}

// Whether no earlier element has the name of element e.
fn name_new(s: &[u8], e: usize) -> bool
    ensures { result ≡ all_below e (names_differ s.now e) }
{
    (0..e).all(|d| names_differ(s, e, d))
}

// The type, the name and the texts of element e.
fn element_right(s: &[u8], e: usize) -> bool
    ensures { result ≡ element_right s.now e }
{
    let x = entries::element(s, e);
    if entries::SHORT < x.kind {
        return false;
    }
    if names::identifier_at(s, x.name, x.name_length, names::LONGEST) {
        if name_new(s, e) {
            return texts::element_texts(s, e);
        }
    }
    false
}

// The first n elements, one after the other.
fn each_right(s: &[u8], n: usize) -> bool
    ensures { result ≡ all_below n (element_right s.now) }
{
    (0..n).all(|e| element_right(s, e))
}

fn elements_right(s: &[u8]) -> bool
    ensures { result ≡ elements_right s.now }
{
    if is_positive(fields::element_count(s)) {
        let n = entries::entries_read(s);
        if fields::header_limit(s) < entries::entry_start(s, n) {
            return false;
        }
        return each_right(s, n);
    }
    false
}

// What follows the entries, where there are at most 16.
fn tail_right(s: &[u8]) -> bool
    ensures { result ≡ tail_right s.now }
{
    if entries::MOST_ELEMENTS < fields::element_count(s) {
        return true;
    }
    if wire::LARGEST_INTEGER < tail::method_count(s) {
        return false;
    }
    let end = tail::fields_end(s);
    let limit = fields::header_limit(s);
    if limit < end {
        return false;
    }
    if 7 < limit - end {
        return false;
    }
    texts::text_right(s, tail::product_label_at(s))
}

// Stage 3.
pub fn header_right(s: &[u8], length: usize) -> bool
    ensures { result ≡ header_right s.now length }
{
    if frame_right(s, length) {
        if sides_right(s) {
            if options_right(s) {
                if elements_right(s) {
                    return tail_right(s);
                }
            }
        }
    }
    false
}
