// Moves a page out to a score sheet (Req 13): one check, then two passes over the pieces of the grid, so that a packed tile is unpacked
// twice at most, where the memory has room for its cells.
//
// The first pass finds the first cell by rows that is refused. The cells of a tile differ in that, so it can't stop at the first piece:
// each such cell weighs what is left from it to the grid's end, and the greatest weight is that of the first. Its cell is then asked again.
#![tactic(auto)]

mod put;
mod read;
mod weigh;

ghost use Rattle.std.specs.Prelude.{◌≡◌, ◌*◌, ◌≤◌, ◌<◌, length, Ok};
ghost use Rattle.answer.specs.Answers.{written};
ghost use Rattle.store.specs.Face.{grid_rows, grid_columns, element_count, check};
ghost use Rattle.sheets.specs.Back as back;
ghost use Rattle.sheets.specs.Back.{is_first, score_cell, judged_out, sheet_of, sheet_back};
ghost use Rattle.sheets.specs.First.{fault_at};
ghost use Rattle.sheets.specs.Rows.{whole_grid, grid_fault, Sides};

use answer::{Cell, Refusal};
use lay_down::sheet;
use score_rule::Said;
use store::many::Rectangle;
use store::{description, many, pieces};

// Whether the rule that a page says is the first.
fn is_first(x: Said) -> bool
    ensures { result ≡ is_first x }
{
    match x {
        Said::First => true,
        Said::Second => false,
        Said::Wrong => false,
    }
}

// The whole grid, and its one element.
fn whole(file: &[u8]) -> Rectangle
    ensures { result ≡ whole_grid file.now }
{
    let shape = description::shape_of(file);
    Rectangle {
        e: 0,
        row: 0,
        column: 0,
        rows: shape.rows as u64,
        columns: shape.columns as u64,
    }
}

// Whether an accepted page has scores as a sheet has them, by the first rule, and a grid that a sheet can state.
fn sheetable(file: &[u8]) -> bool
    requires { check file.now ≡ Ok tt }
    ensures { result ≡ back.sheetable file.now }
{
    let a = whole(file);
    if 65535 < a.rows {
        return false;
    }
    if 65535 < a.columns {
        return false;
    }
    if 4294967295 < 5 + 2 * (a.rows * a.columns) {
        return false;
    }
    if is_first(score_rule::page_says(file)) {
        return sheet::score_element(file);
    }
    false
}

// A cell of the grid of an accepted page.
fn cell_at(
    file: &[u8],
    compressor: u32,
    memory: &mut [u32],
    row: u64,
    column: u64,
) -> Result<Cell, Refusal>
    requires { (check file.now ≡ Ok tt) × ((row < grid_rows file.now) × ((column < grid_columns file.now) × (1 ≤ element_count file.now))) }
    ensures { result ≡ score_cell file.now compressor row column }
{
    let a = Rectangle {
        e: 0,
        row,
        column,
        rows: 1,
        columns: 1,
    };
    let p = pieces::first_piece(file, a, 0);
    let held = many::hold_lent(file, compressor, p.tile, 0, memory);
    many::held_cell(file, compressor, held, memory, row, column, 0)
}

// The fault of the cell with a weight; none of weight 0.
fn fault_at(
    file: &[u8],
    compressor: u32,
    memory: &mut [u32],
    a: Rectangle,
    w: u64,
) -> Result<(), Refusal>
    requires accepts { (check file.now ≡ Ok tt) × ((a ≡ whole_grid file.now) × (1 ≤ element_count file.now)) }
    requires weight { Sides a.rows a.columns × (w ≤ a.rows * a.columns) }
    ensures { result ≡ fault_at a.rows a.columns (grid_fault file.now compressor) w }
{
    if w == 0 {
        return Ok(());
    }
    let n = a.rows * a.columns - w;
    let row = n / a.columns;
    let column = n % a.columns;
    read::fault_of(cell_at(file, compressor, memory, row, column))
}

// What is judged behind the check.
fn judged(file: &[u8], compressor: u32, memory: &mut [u32]) -> Result<(), Refusal>
    requires { check file.now ≡ Ok tt }
    ensures { result ≡ judged_out file.now compressor }
{
    if sheetable(file) {
        let a = whole(file);
        let w = weigh::weigh_all(file, compressor, memory, a);
        return fault_at(file, compressor, memory, a, w);
    }
    Err(Refusal::Input)
}

// The sheet of a page that nothing refuses but a short buffer.
fn put_sheet(
    file: &[u8],
    compressor: u32,
    memory: &mut [u32],
    sheet: &mut [u8],
) -> Result<usize, Refusal>
    requires { (check file.now ≡ Ok tt) × (judged_out file.now compressor ≡ Ok tt) }
    ensures answer { result ≡ sheet_back file.now compressor (length sheet.old) }
    ensures buffer { sheet.new ≡ written result (sheet_of file.now compressor) sheet.old }
{
    let a = whole(file);
    let n = 9 + 2 * (a.rows * a.columns);
    if (sheet.len() as u64) < n {
        return Err(Refusal::Room);
    }
    score_sheets::put_head(sheet, a.rows as u16, a.columns as u16);
    put::put_all(file, compressor, memory, a, &mut sheet[9..]);
    Ok(n as usize)
}

// The sheet of an accepted page.
fn sheet_accepted(
    file: &[u8],
    compressor: u32,
    memory: &mut [u32],
    sheet: &mut [u8],
) -> Result<usize, Refusal>
    requires { check file.now ≡ Ok tt }
    ensures answer { result ≡ sheet_back file.now compressor (length sheet.old) }
    ensures buffer { sheet.new ≡ written result (sheet_of file.now compressor) sheet.old }
{
    match judged(file, compressor, memory) {
        Err(r) => Err(r),
        Ok(()) => put_sheet(file, compressor, memory, sheet),
    }
}

// Moves a page out to a sheet, with the compressor index of its packed tiles. `memory` may have any length, and what it holds afterwards is
// free: where it has as many numbers as a tile has cells, a packed tile is unpacked twice.
pub fn sheet_of(
    file: &[u8],
    compressor: u32,
    memory: &mut [u32],
    sheet: &mut [u8],
) -> Result<usize, Refusal>
    ensures answer { result ≡ sheet_back file.now compressor (length sheet.old) }
    ensures buffer { sheet.new ≡ written result (sheet_of file.now compressor) sheet.old }
{
    match store::check(file) {
        Err(r) => Err(r),
        Ok(()) => sheet_accepted(file, compressor, memory, sheet),
    }
}
