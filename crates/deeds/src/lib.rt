// Whether the scores of a rectangle of a page are certain, doubtful or unread: one check, then each tile that the rectangle meets once.
#![tactic(auto)]

mod pieces;
mod tally;

ghost use Rattle.std.specs.Prelude.{◌≡◌};
ghost use Rattle.store.specs.Face.{Accepts};
ghost use Rattle.score_rule.specs.Rules.{page_says};
ghost use Rattle.deeds.specs.Deeds.{rectangle_scored, grade_from, deed_by, cells_of, deed_said, deed_in, deed, grade_number, has_lowest, lowest_bits, deed_number, deed_fills, deed_lowest, deed_has_lowest, deed_lowest_bits, deed_scale, deed_place};

use answer::Refusal;
use score_rule::Said;
use store::many::Rectangle;
use store::{description, many};
use tally::Tally;

// The scores that are certain: from a mark to a scale.
#[derive(Clone, Copy)]
pub struct Rule {
    pub mark: i16,
    pub scale: i16,
}

#[derive(Clone, Copy)]
pub enum Grade {
    Certain,
    Doubtful,
    Unread,
}

// What is said of a rectangle: the rule that its page says, its grade by that rule, how many of its cells are fill, and its lowest stored
// score, if any.
#[derive(Clone, Copy)]
pub struct Deed {
    pub rule: Rule,
    pub grade: Grade,
    pub fills: u64,
    pub lowest: Option<i16>,
}

// Whether the rectangle has a cell and the element is a Short.
fn rectangle_scored(file: &[u8], e: u64, rows: u64, columns: u64) -> bool
    ensures { result ≡ rectangle_scored file.now e rows columns }
{
    if rows == 0 {
        return false;
    }
    if columns == 0 {
        return false;
    }
    description::kind_of(file, e) == 3
}

// The grade of what was counted.
fn grade_of(t: Tally) -> Grade
    ensures { result ≡ grade_from t.fills t.certain }
{
    if t.fills == 0 {
        if t.certain {
            return Grade::Certain;
        }
        return Grade::Doubtful;
    }
    Grade::Unread
}

// The deed of a rectangle in the grid of an accepted file, by a rule.
fn judge_by(
    file: &[u8],
    compressor: u32,
    a: Rectangle,
    memory: &mut [u32],
    rule: Rule,
) -> Result<Deed, Refusal>
    requires { Accepts file.now a }
    ensures { result ≡ deed_by rule a.rows a.columns (cells_of file.now compressor a.e a.row a.column) }
{
    let t = pieces::judge_all(file, compressor, memory, a, rule)?;
    Ok(Deed {
        rule,
        grade: grade_of(t),
        fills: t.fills,
        lowest: t.lowest,
    })
}

// By the rule that the page says: in thousandths, certain from 900 to 1000, or in ten-thousandths, certain from 9,500 to 10,000.
fn judge_said(
    file: &[u8],
    compressor: u32,
    a: Rectangle,
    memory: &mut [u32],
) -> Result<Deed, Refusal>
    requires { Accepts file.now a }
    ensures { result ≡ deed_said (page_says file.now) a.rows a.columns (cells_of file.now compressor a.e a.row a.column) }
{
    match score_rule::page_says(file) {
        Said::First => {
            let first = Rule {
                mark: 900,
                scale: 1000,
            };
            judge_by(file, compressor, a, memory, first)
        }
        Said::Second => {
            let second = Rule {
                mark: 9500,
                scale: 10000,
            };
            judge_by(file, compressor, a, memory, second)
        }
        Said::Wrong => Err(Refusal::Input),
    }
}

// The same, where the rectangle has a cell and the element is a Short.
fn judge_inside(
    file: &[u8],
    compressor: u32,
    a: Rectangle,
    memory: &mut [u32],
) -> Result<Deed, Refusal>
    requires { Accepts file.now a }
    ensures { result ≡ deed_in file.now compressor a.e a.row a.column a.rows a.columns }
{
    if rectangle_scored(file, a.e, a.rows, a.columns) {
        judge_said(file, compressor, a, memory)
    } else {
        Err(Refusal::Input)
    }
}

// Judges the scores of a Short element in a rectangle. `memory` may have any length, and what it holds afterwards is free: where it has as
// many numbers as a tile has cells, a packed tile is unpacked once.
pub fn judge(
    file: &[u8],
    compressor: u32,
    e: u64,
    row: u64,
    column: u64,
    rows: u64,
    columns: u64,
    memory: &mut [u32],
) -> Result<Deed, Refusal>
    ensures { result ≡ deed file.now compressor e row column rows columns }
{
    store::check(file)?;
    if !many::rectangle_inside(file, e, row, column, rows, columns) {
        return Err(Refusal::OutsideGrid);
    }
    let a = Rectangle {
        e,
        row,
        column,
        rows,
        columns,
    };
    judge_inside(file, compressor, a, memory)
}

fn grade_number(g: Grade) -> u32
    ensures { result ≡ grade_number g }
{
    match g {
        Grade::Certain => 64,
        Grade::Doubtful => 65,
        Grade::Unread => 66,
    }
}

fn has_lowest(x: Option<i16>) -> u32
    ensures { result ≡ has_lowest x }
{
    match x {
        Some(_) => 1,
        None => 0,
    }
}

fn lowest_bits(x: Option<i16>) -> u32
    ensures { result ≡ lowest_bits x }
{
    match x {
        Some(z) => answer::bits_16(z) as u32,
        None => 0,
    }
}

// 64, 65 or 66, or the refusal's number.
pub fn deed_number(x: Result<Deed, Refusal>) -> u32
    ensures { result ≡ deed_number x }
{
    match x {
        Ok(d) => grade_number(d.grade),
        Err(r) => answer::refusal_number(r),
    }
}

// The number of fill cells.
pub fn deed_fills(x: Result<Deed, Refusal>) -> u64
    ensures { result ≡ deed_fills x }
{
    match x {
        Ok(d) => d.fills,
        Err(_) => 0,
    }
}

fn deed_lowest(x: Result<Deed, Refusal>) -> Option<i16>
    ensures { result ≡ deed_lowest x }
{
    match x {
        Ok(d) => d.lowest,
        Err(_) => None,
    }
}

// 1 where there is a lowest stored score, else 0; and its 16 bits.
pub fn deed_has_lowest(x: Result<Deed, Refusal>) -> u32
    ensures { result ≡ deed_has_lowest x }
{
    has_lowest(deed_lowest(x))
}

pub fn deed_lowest_bits(x: Result<Deed, Refusal>) -> u32
    ensures { result ≡ deed_lowest_bits x }
{
    lowest_bits(deed_lowest(x))
}

// The scale of the rule, 1000 or 10000; 0 of a refusal.
pub fn deed_scale(x: Result<Deed, Refusal>) -> u32
    ensures { result ≡ deed_scale x }
{
    match x {
        Ok(d) => answer::bits_16(d.rule.scale) as u32,
        Err(_) => 0,
    }
}

// The refusal's place.
pub fn deed_place(x: Result<Deed, Refusal>) -> usize
    ensures { result ≡ deed_place x }
{
    match x {
        Ok(_) => 0,
        Err(r) => answer::refusal_place(r),
    }
}
