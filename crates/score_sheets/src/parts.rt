// Scores by row and column, of a rectangle that may reach past the sheet. What lies past it is -1 and is not visited.
ghost use Rattle.std.specs.Prelude.{◌≡◌, min, ◌+◌, ◌-◌, ◌*◌, ◌≤◌, ◌<◌, length, eqb};
ghost use mathlib.Core.List.{map, flat_map};
ghost use Rattle.wire.specs.Bytes.{bytes_of, put};
ghost use Rattle.wire.specs.Tests.{all_below};
ghost use Rattle.wire.specs.Lists.{below};
ghost use Rattle.score_sheets.specs.Sheet.{score_at, unread};
ghost use Rattle.score_sheets.specs.Parts.{score_in, part_scores, part_unread};

use crate::{UNREAD, sheet_columns, sheet_rows};
use wire::big;

// How many of n places from one on lie before the end.
fn places_left(at: u64, n: u64, end: u64) -> u64
    ensures { result ≡ min n (end - at) }
{
    if end <= at {
        return 0;
    }
    if end - at < n {
        return end - at;
    }
    n
}

// Whether n scores from the one with a number on are -1.
fn run_unread(sheet: &[u8], first: u64, n: u64) -> bool
    requires { first + n ≤ 4294967296 }
    ensures { result ≡ all_below n (λ i. eqb (score_at sheet.now (first + i)) 65535) }
{
    (0..n).all(|i| big::u16_at(sheet, (9 + 2 * (first + i)) as usize) == UNREAD)
}

// Whether each score of the rectangle is -1.
pub fn part_unread(sheet: &[u8], row: u32, column: u32, m: u32, n: u32) -> bool
    ensures { result ≡ part_unread sheet.now row column m n }
{
    let columns = sheet_columns(sheet) as u64;
    if columns <= column as u64 {
        return true;
    }
    let high = places_left(row as u64, m as u64, sheet_rows(sheet) as u64);
    let wide = places_left(column as u64, n as u64, columns);
    (0..high).all(|r| {
        let first = (row as u64 + r) * columns + column as u64;
        run_unread(sheet, first, wide)
    })
}

// Two bytes of a number, lowest first.
fn put_two(out: &mut [u8], at: usize, v: u32)
    requires { (v < 65536) × (at + 2 ≤ length out.old) }
    ensures { out.new ≡ put out.old at (bytes_of 2 v) }
{
    out[at] = (v % 256) as u8;
    out[at + 1] = (v / 256) as u8;
}

// n scores from the one with a number on, each with its lowest byte first.
fn put_run(out: &mut [u8], at: usize, sheet: &[u8], first: u64, n: u64)
    requires { (first + n ≤ 4294967296) × (at + 2 * n ≤ length out.old) }
    ensures { out.new ≡ put out.old at (flat_map (bytes_of 2) (map (λ i. score_at sheet.now (first + i)) (below n))) }
{
    for i in 0..n {
        let v = big::u16_at(sheet, (9 + 2 * (first + i)) as usize);
        put_two(out, at + 2 * (i as usize), v);
    }
}

// n times -1.
fn put_unread(out: &mut [u8], at: usize, n: u64)
    requires { at + 2 * n ≤ length out.old }
    ensures { out.new ≡ put out.old at (flat_map (bytes_of 2) (map (λ i. unread) (below n))) }
{
    for i in 0..n {
        put_two(out, at + 2 * (i as usize), UNREAD);
    }
}

// n scores of a row from a column on.
fn put_row(out: &mut [u8], at: usize, sheet: &[u8], row: u64, column: u64, n: u64)
    requires { at + 2 * n ≤ length out.old }
    ensures { out.new ≡ put out.old at (flat_map (bytes_of 2) (map (λ i. score_in sheet.now row (column + i)) (below n))) }
{
    let columns = sheet_columns(sheet) as u64;
    if sheet_rows(sheet) as u64 <= row {
        put_unread(out, at, n);
        return;
    }
    if columns <= column {
        put_unread(out, at, n);
        return;
    }
    let wide = places_left(column, n, columns);
    put_run(out, at, sheet, row * columns + column, wide);
    put_unread(out, at + 2 * (wide as usize), n - wide);
}

// The rows of the rectangle.
fn put_rows(out: &mut [u8], at: usize, sheet: &[u8], row: u32, column: u32, m: u32, n: u32)
    requires { at + m * n * 2 ≤ length out.old }
    ensures { out.new ≡ put out.old at (flat_map (bytes_of 2) (part_scores sheet.now row column m n)) }
{
    let mut p = at;
    for r in 0..m {
        put_row(
            out,
            p,
            sheet,
            row as u64 + r as u64,
            column as u64,
            n as u64,
        );
        p += 2 * (n as usize);
    }
}

// The scores of the rectangle by rows, each with its lowest byte first.
pub fn put_scores(out: &mut [u8], at: usize, sheet: &[u8], row: u32, column: u32, m: u32, n: u32)
    ensures { out.new ≡ put out.old at (flat_map (bytes_of 2) (part_scores sheet.now row column m n)) }
{
    let room = out.len();
    if room < at {
        return;
    }
    let cells = m as usize * n as usize;
    if (room - at) / 2 < cells {
        return;
    }
    put_rows(out, at, sheet, row, column, m, n);
}
