// What is said of two pages that are compared cell by cell: the answer, whether two pages are alike, whether two cells differ, and whose
// refusal comes first.
#![tactic(auto)]

ghost use Rattle.std.specs.Prelude.{◌≡◌, eqb};
ghost use Rattle.wire.specs.Tests.{all_below};
ghost use Rattle.store.specs.Face.{element};
ghost use Rattle.comparisons.specs.Comparisons as says;
ghost use Rattle.comparisons.specs.Comparisons.{compared_kind, differ, cell_halt, unless_halted, comparison_number, comparison_page, comparison_count};
ghost use Rattle.comparisons.specs.declared.Comparison.TheVariants as comparison;

use answer::{Cell, Refusal};
use store::description;

// What is said of two pages: how many cells differ, or whose refusal it is, or that they are unlike.
#[derive(Clone, Copy)]
pub enum Comparison {
    Count(u64),
    First(Refusal),
    Second(Refusal),
    Unlike,
}

// Of cells of two pages, the first refusal, if any, and whose it is.
#[derive(Clone, Copy)]
pub enum Halt {
    None,
    First(Refusal),
    Second(Refusal),
}

// Whether the first n elements have the same types.
fn kinds_alike(first: &[u8], second: &[u8], n: u64) -> bool
    ensures { result ≡ all_below n (λ e. eqb (element first.now e).kind (element second.now e).kind) }
{
    let mut e = 0;
    while e < n {
        if description::kind_of(first, e) != description::kind_of(second, e) {
            return false;
        }
        e += 1;
    }
    true
}

// Whether grid, tile sides and element types are equal.
pub fn alike(first: &[u8], second: &[u8]) -> bool
    ensures { result ≡ says.alike first.now second.now }
{
    let a = description::shape_of(first);
    let b = description::shape_of(second);
    if a.rows != b.rows {
        return false;
    }
    if a.columns != b.columns {
        return false;
    }
    if a.tile_rows != b.tile_rows {
        return false;
    }
    if a.tile_columns != b.tile_columns {
        return false;
    }
    if a.elements != b.elements {
        return false;
    }
    kinds_alike(first, second, a.elements as u64)
}

// Stored and unpacked are one kind.
pub fn compared_kind(x: Result<Cell, Refusal>) -> u32
    ensures { result ≡ compared_kind x }
{
    let kind = answer::cell_kind(x);
    if kind == 34 {
        return 32;
    }
    kind
}

// Whether two cells differ in kind or bits.
pub fn differs(x: Result<Cell, Refusal>, y: Result<Cell, Refusal>) -> bool
    ensures { result ≡ differ x y }
{
    if compared_kind(x) == compared_kind(y) {
        return answer::cell_bits(x) != answer::cell_bits(y);
    }
    true
}

// The refusal of two cells, the first page's before the second's.
pub fn cell_halt(x: Result<Cell, Refusal>, y: Result<Cell, Refusal>) -> Halt
    ensures { result ≡ cell_halt x y }
{
    match answer::cell_verdict(x) {
        Err(r) => Halt::First(r),
        Ok(()) => match answer::cell_verdict(y) {
            Err(r) => Halt::Second(r),
            Ok(()) => Halt::None,
        },
    }
}

// A refusal as an answer; none is no answer, and counts as unlike.
pub fn halted(h: Halt) -> Comparison
    ensures { result ≡ unless_halted h comparison.Unlike }
{
    match h {
        Halt::None => Comparison::Unlike,
        Halt::First(r) => Comparison::First(r),
        Halt::Second(r) => Comparison::Second(r),
    }
}

// 0, or the refusal's number.
pub fn comparison_number(x: Comparison) -> u32
    ensures { result ≡ comparison_number x }
{
    match x {
        Comparison::Count(_) => 0,
        Comparison::First(r) => answer::refusal_number(r),
        Comparison::Second(r) => answer::refusal_number(r),
        Comparison::Unlike => 12,
    }
}

// Whose refusal it is: 1 the first page's, 2 the second's, else 0.
pub fn comparison_page(x: Comparison) -> u64
    ensures { result ≡ comparison_page x }
{
    match x {
        Comparison::Count(_) => 0,
        Comparison::First(_) => 1,
        Comparison::Second(_) => 2,
        Comparison::Unlike => 0,
    }
}

// The number of differing cells, or the refusal's place.
pub fn comparison_count(x: Comparison) -> u64
    ensures { result ≡ comparison_count x }
{
    match x {
        Comparison::Count(n) => n,
        Comparison::First(r) => answer::refusal_place(r) as u64,
        Comparison::Second(r) => answer::refusal_place(r) as u64,
        Comparison::Unlike => 0,
    }
}
