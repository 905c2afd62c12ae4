// Two pages compared.
ghost use Rattle.std.specs.Prelude.{◌≡◌, length};
ghost use Rattle.wire.specs.Bytes.{put};
ghost use Rattle.comparisons.specs.Comparisons.{comparison, written, comparison_number};
ghost use Rattle.gvrs_c.specs.Report.{reported, comparison_numbers};

use crate::description;
use comparisons::Comparison;

// What `out` takes of a comparison.
fn comparison_numbers(x: Comparison) -> [u64; 2]
    ensures { result ≡ comparison_numbers x }
{
    [
        comparisons::comparison_count(x),
        comparisons::comparison_page(x),
    ]
}

// Compares two pages: 0, and `out` takes the number of cells that differ, and 0; else the refusal's number, its place, and 1 where it is the
// first page's, 2 the second's, 0 where the pages are unlike. `list` takes the earliest entries that fit whole, each a row, a column, an
// element, a tile and the number inside it; the rest of it stays, and all of it on a refusal. What `memory` holds afterwards is free.
#[unsafe(no_mangle)]
pub extern "C" fn gvrs_compare(
    first: &[u8],
    k: u32,
    second: &[u8],
    j: u32,
    memory: &mut [u32],
    list: &mut [u32],
    out: &mut [u64],
) -> u32
    ensures number { result ≡ comparison_number (comparison first.now k second.now j) }
    ensures told { out.new ≡ reported (comparison_numbers (comparison first.now k second.now j)) out.old }
    ensures list { list.new ≡ put list.old 0 (written first.now k second.now j (length list.old) (comparison first.now k second.now j)) }
{
    let x = page_compare::compare_pages(first, k, second, j, memory, list);
    let numbers = comparison_numbers(x);
    description::report_all(out, &numbers);
    comparisons::comparison_number(x)
}
