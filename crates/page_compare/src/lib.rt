// Two pages compared cell by cell: one check of each, then a pass over the tiles of both to count the cells that differ, and two more over
// those rows of tiles whose cells are listed. An absent tile is a step.
#![tactic(auto)]

mod count;
mod marks;
mod place;
mod sides;

ghost use Rattle.std.specs.Prelude.{◌≡◌, true, ◌⊎◌, length, Ok};
ghost use Rattle.wire.specs.Bytes.{put};
ghost use Rattle.store.specs.Face.{check};
ghost use Rattle.comparisons.specs.Comparisons as says;
ghost use Rattle.comparisons.specs.declared.Comparison.TheVariants as comparison;
ghost use Rattle.comparisons.specs.Comparisons.{compared_pages, written};

use comparisons::Comparison;
use store::description;
use store::many::Rectangle;

// The compressor index of each page, and the number of elements.
#[derive(Clone, Copy)]
pub(crate) struct Pair {
    pub first: u32,
    pub second: u32,
    pub elements: u64,
}

// A step of comparing two accepted pages that are alike: where nothing is known of them yet, which `Unlike` stands for, the cells that differ
// are counted; where it is known how many differ, they are listed. Both steps are calls of one function, which is then compiled by itself:
// its arrays do not lie beneath the checks on the stack.
fn compare_step(
    first: &[u8],
    k: u32,
    second: &[u8],
    j: u32,
    known: Comparison,
    memory: &mut [u32],
    list: &mut [u32],
) -> Comparison
    requires accepted { (check first.now ≡ Ok tt) × (check second.now ≡ Ok tt) }
    requires alike { says.alike first.now second.now ≡ true }
    requires known { (known ≡ comparison.Unlike) ⊎ (known ≡ compared_pages first.now k second.now j) }
    ensures is { result ≡ compared_pages first.now k second.now j }
    ensures list { list.new ≡ put list.old 0 (written first.now k second.now j (length list.old) known) }
{
    let shape = description::shape_of(first);
    let a = Rectangle {
        e: 0,
        row: 0,
        column: 0,
        rows: shape.rows as u64,
        columns: shape.columns as u64,
    };
    let q = Pair {
        first: k,
        second: j,
        elements: shape.elements as u64,
    };
    let mut marks = [0u8; 65536];
    let mut counts = [0u64; 4096];
    match known {
        Comparison::Unlike => count::count_all(
            first,
            second,
            q,
            memory,
            a,
            &mut marks,
            &mut counts,
        ),
        Comparison::Count(n) => {
            place::list_all(
                first,
                second,
                q,
                memory,
                a,
                n,
                &mut marks,
                &mut counts,
                list,
            );
            known
        }
        Comparison::First(_) => known,
        Comparison::Second(_) => known,
    }
}

// Two accepted pages that are alike.
fn compare_alike(
    first: &[u8],
    k: u32,
    second: &[u8],
    j: u32,
    memory: &mut [u32],
    list: &mut [u32],
) -> Comparison
    requires accepted { (check first.now ≡ Ok tt) × (check second.now ≡ Ok tt) }
    requires alike { says.alike first.now second.now ≡ true }
    ensures is { result ≡ compared_pages first.now k second.now j }
    ensures list { list.new ≡ put list.old 0 (written first.now k second.now j (length list.old) result) }
{
    let counted = compare_step(first, k, second, j, Comparison::Unlike, memory, list);
    compare_step(first, k, second, j, counted, memory, list)
}

// Compares two pages, each with its compressor index. `memory` may have any length, and what it holds afterwards is free: where it has
// twice as many numbers as a tile has cells, all elements together, no packed tile is unpacked more than three times. The list takes the
// earliest entries that fit whole, and what stands behind them stays, all of it on a refusal.
pub fn compare_pages(
    first: &[u8],
    k: u32,
    second: &[u8],
    j: u32,
    memory: &mut [u32],
    list: &mut [u32],
) -> Comparison
    ensures is { result ≡ says.comparison first.now k second.now j }
    ensures list { list.new ≡ put list.old 0 (written first.now k second.now j (length list.old) result) }
{
    match store::check(first) {
        Err(r) => Comparison::First(r),
        Ok(()) => match store::check(second) {
            Err(r) => Comparison::Second(r),
            Ok(()) => {
                if comparisons::alike(first, second) {
                    return compare_alike(first, k, second, j, memory, list);
                }
                Comparison::Unlike
            }
        },
    }
}
