// How long a front would be, and whether a description can be written down at all: asked of the numbers given, before any text is looked
// at. Sums are made only behind the tests that keep them small.
ghost use Rattle.std.specs.Prelude.{◌≡◌, true, ◌+◌, ◌-◌, ◌*◌, ◌/◌, ◌≤◌, length};
ghost use Rattle.wire.specs.Tests.{all_below, sum_below};
ghost use Rattle.fronts.specs.Given.{text_at, method_length, texts_short, method_short, describable};
ghost use Rattle.fronts.specs.Writing.{entry_counted, front_counted, Summed, MethodsSummed, Counted, counts_right, sums_right};

use crate::entries;
use check_header::ceilings;
use written_records::pieces;

// The most bytes of a string (G Table 5).
const LONGEST_STRING: u32 = 65535;

// Whether the four strings of element e are short enough.
fn texts_short(elements: &[u32], e: usize) -> bool
    requires { e * 14 + 14 ≤ length elements.now }
    ensures { result ≡ texts_short elements.now e }
{
    let x = entries::numbers_at(elements, e);
    if LONGEST_STRING < x.name {
        return false;
    }
    if LONGEST_STRING < x.label {
        return false;
    }
    if LONGEST_STRING < x.description {
        return false;
    }
    if LONGEST_STRING < x.unit {
        return false;
    }
    true
}

fn elements_short(elements: &[u32], n: usize) -> bool
    requires { n * 14 ≤ length elements.now }
    ensures { result ≡ all_below n (texts_short elements.now) }
{
    (0..n).all(|e| texts_short(elements, e))
}

// Whether the name of method i is short enough.
fn method_short(page: &[u32], i: usize) -> bool
    requires { 6 + i ≤ length page.now }
    ensures { result ≡ method_short page.now i }
{
    if LONGEST_STRING < wire::number_in(page, 6 + i) {
        return false;
    }
    true
}

fn methods_short(page: &[u32], n: usize) -> bool
    requires { 6 + n ≤ length page.now }
    ensures { result ≡ all_below n (method_short page.now) }
{
    (0..n).all(|i| method_short(page, i))
}

// Where the strings of element n start among the texts: the bytes of those before it.
pub(crate) fn texts_before(elements: &[u32], n: usize) -> usize
    requires { Summed elements.now n }
    ensures { result ≡ text_at elements.now n }
{
    let mut sum = 0;
    for e in 0..n {
        sum += entries::texts_of(elements, e);
    }
    sum
}

// The bytes of the names of the first n methods.
pub(crate) fn methods_before(page: &[u32], n: usize) -> usize
    requires { MethodsSummed page.now n }
    ensures { result ≡ sum_below n (method_length page.now) }
{
    let mut sum = 0;
    for i in 0..n {
        sum += wire::number_in(page, 6 + i) as usize;
    }
    sum
}

// The length of the entry of element e.
fn entry_length(elements: &[u32], e: usize) -> usize
    requires { (e * 14 + 14 ≤ length elements.now) × (texts_short elements.now e ≡ true) }
    ensures { result ≡ entry_counted elements.now e }
{
    let x = entries::numbers_at(elements, e);
    let head = 10 + x.name as usize + 4 * entries::range_count(x.kind);
    let tail = 6 + x.label as usize + x.description as usize + x.unit as usize;
    let first = head + pieces::padding(head);
    first + (tail + pieces::padding(tail))
}

fn entries_length(elements: &[u32], n: usize) -> usize
    requires { Summed elements.now n }
    ensures { result ≡ sum_below n (entry_counted elements.now) }
{
    let mut sum = 0;
    for e in 0..n {
        sum += entry_length(elements, e);
    }
    sum
}

// The length of the front.
pub(crate) fn front_length(page: &[u32], elements: &[u32]) -> usize
    requires { Counted page.now elements.now }
    ensures { result ≡ front_counted page.now elements.now }
{
    let methods = page.len() - 6;
    let entries = entries_length(elements, elements.len() / 14);
    let names = methods_before(page, methods);
    let label = wire::number_in(page, 5) as usize;
    let body = 274 + entries + 2 * methods + names + label;
    16 + (body + 19) / 8 * 8
}

// How many numbers and bytes are given; the length of the product label.
fn counts_right(page: &[u32], uuid: &[u8], elements: &[u32]) -> bool
    ensures { result ≡ counts_right page.now uuid.now elements.now }
{
    if page.len() < 6 {
        return false;
    }
    if uuid.len() != 16 {
        return false;
    }
    if elements.len() % 14 != 0 {
        return false;
    }
    if ceilings::MOST_FILE_BYTES < elements.len() / 14 {
        return false;
    }
    if ceilings::MOST_FILE_BYTES < page.len() - 6 {
        return false;
    }
    if LONGEST_STRING < wire::number_in(page, 5) {
        return false;
    }
    true
}

// The texts are as long as they are said to be, and the front is no longer than a file may be.
fn sums_right(page: &[u32], elements: &[u32], texts: &[u8]) -> bool
    requires { Counted page.now elements.now }
    ensures { result ≡ sums_right page.now elements.now texts.now }
{
    let from = texts_before(elements, elements.len() / 14);
    let names = methods_before(page, page.len() - 6);
    let label = wire::number_in(page, 5) as usize;
    if from + names + label != texts.len() {
        return false;
    }
    if ceilings::MOST_FILE_BYTES < front_length(page, elements) {
        return false;
    }
    true
}

// Whether a description can be written down.
pub(crate) fn is_describable(page: &[u32], uuid: &[u8], elements: &[u32], texts: &[u8]) -> bool
    ensures { result ≡ describable page.now uuid.now elements.now texts.now }
{
    if counts_right(page, uuid, elements) {
        if elements_short(elements, elements.len() / 14) {
            if methods_short(page, page.len() - 6) {
                return sums_right(page, elements, texts);
            }
        }
    }
    false
}
