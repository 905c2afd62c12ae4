// Score sheets: whether one is right, its scores as a page has them, and its first bytes. A sheet is a slice, and no byte more; of one
// that is not right each function promises its definition too.
#![tactic(auto)]

pub mod parts;

ghost use Rattle.std.specs.Prelude.{◌≡◌, ◌+◌, ◌*◌, ◌≤◌, ◌<◌, length, [], ◌∷◌};
ghost use Rattle.wire.specs.Bytes.{byte_at, put};
ghost use Rattle.wire.specs.Big.{big_at};
ghost use Rattle.wire.specs.Tests.{◌≤?◌, ◌≡?◌, passes, all_below};
ghost use Rattle.score_sheets.specs.Sheet.{sheet_rows, sheet_columns, score_at, score_right, sheet_right, sheet_head};

use wire::{big, writing};

// -1, as 16 bits.
pub const UNREAD: u32 = 65535;

pub fn sheet_rows(sheet: &[u8]) -> u32
    ensures is { result ≡ sheet_rows sheet.now }
    ensures small { result < 65536 }
{
    big::u16_at(sheet, 5)
}

pub fn sheet_columns(sheet: &[u8]) -> u32
    ensures is { result ≡ sheet_columns sheet.now }
    ensures small { result < 65536 }
{
    big::u16_at(sheet, 7)
}

// Whether 16 bits are those of a score: 0 to 1000, or -1.
pub fn score_right(v: u32) -> bool
    ensures { result ≡ score_right v }
{
    if v <= 1000 {
        return true;
    }
    v == UNREAD
}

// Whether the first n scores are right.
fn scores_right(sheet: &[u8], n: usize) -> bool
    requires { 9 + 2 * n ≤ length sheet.now }
    ensures { result ≡ all_below n (λ i. score_right (score_at sheet.now i)) }
{
    (0..n).all(|i| score_right(big::u16_at(sheet, 9 + 2 * i)))
}

// Whether a sheet has its first nine bytes, the length that it states, and version 1.
fn head_right(sheet: &[u8]) -> bool
    ensures { result ≡ passes ((9 ≤? length sheet.now) ∷ (big_at 4 sheet.now 0 + 4 ≡? length sheet.now) ∷ (byte_at sheet.now 4 ≡? 1) ∷ []) }
{
    let n = sheet.len();
    if n < 9 {
        return false;
    }
    if big::u32_at(sheet, 0) as usize + 4 != n {
        return false;
    }
    wire::byte_at(sheet, 4) == 1
}

pub fn sheet_right(sheet: &[u8]) -> bool
    ensures { result ≡ sheet_right sheet.now }
{
    if head_right(sheet) {
        let rows = sheet_rows(sheet) as usize;
        let columns = sheet_columns(sheet) as usize;
        if rows == 0 {
            return false;
        }
        if columns == 0 {
            return false;
        }
        let n = rows * columns;
        if 9 + 2 * n != sheet.len() {
            return false;
        }
        return scores_right(sheet, n);
    }
    false
}

// The first nine bytes of a sheet of so many rows and columns.
pub fn put_head(out: &mut [u8], rows: u16, columns: u16)
    ensures { out.new ≡ put out.old 0 (sheet_head rows columns) }
{
    if out.len() < 9 {
        return;
    }
    let long = 5 + 2 * (rows as u64 * columns as u64);
    big::put_u32(out, 0, (long % 4294967296) as u32);
    writing::put_byte(out, 4, 1);
    big::put_u16(out, 5, rows as u32);
    big::put_u16(out, 7, columns as u32);
}
