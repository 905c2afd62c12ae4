// The scores of a rectangle judged.
ghost use Rattle.std.specs.Prelude.{◌≡◌};
ghost use Rattle.deeds.specs.Deeds.{deed, deed_number};
ghost use Rattle.gvrs_c.specs.Report.{reported, deed_report, deed_numbers};

use crate::description;
use answer::Refusal;
use deeds::Deed;

// The number of fill cells, or the refusal's place.
fn deed_report(x: Result<Deed, Refusal>) -> u64
    ensures { result ≡ deed_report x }
{
    match x {
        Ok(d) => d.fills,
        Err(r) => answer::refusal_place(r) as u64,
    }
}

// What `out` takes of a deed.
fn deed_numbers(x: Result<Deed, Refusal>) -> [u64; 4]
    ensures { result ≡ deed_numbers x }
{
    [
        deed_report(x),
        deeds::deed_has_lowest(x) as u64,
        deeds::deed_lowest_bits(x) as u64,
        deeds::deed_scale(x) as u64,
    ]
}

// Judges the scores of a Short element in a rectangle: 64 where they are certain, 65 doubtful, 66 unread, else the refusal's number; `out`
// takes the number of fill cells or the refusal's place, then 1 and the lowest stored score's 16 bits, or 0 and 0 where there is none, then
// the scale of the rule that the page says, 0 of a refusal. What `memory` holds afterwards is free.
#[unsafe(no_mangle)]
pub extern "C" fn gvrs_deed(
    file: &[u8],
    compressor: u32,
    element: u64,
    row: u64,
    column: u64,
    rows: u64,
    columns: u64,
    memory: &mut [u32],
    out: &mut [u64],
) -> u32
    ensures number { result ≡ deed_number (deed file.now compressor element row column rows columns) }
    ensures told { out.new ≡ reported (deed_numbers (deed file.now compressor element row column rows columns)) out.old }
{
    let x = deeds::judge(
        file, compressor, element, row, column, rows, columns, memory,
    );
    let numbers = deed_numbers(x);
    description::report_all(out, &numbers);
    deeds::deed_number(x)
}
