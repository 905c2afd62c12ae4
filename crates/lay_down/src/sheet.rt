// Moves a score sheet into a page (Req 13): a lay-down of the tiles that have a score. The tiles' bytes stand nowhere else: each score
// goes from the sheet straight to its place in the file. Three passes over the sheet: whether it is right, which tiles are kept, and the
// scores of those.
ghost use Rattle.std.specs.Prelude.{◌≡◌, true, ◌+◌, ◌≤◌, ◌<◌, length, take, set, Ok};
ghost use Rattle.wire.specs.Pick.{pick};
ghost use Rattle.wire.specs.Bytes.{put};
ghost use Rattle.score_sheets.specs.Sheet.{sheet_right};
ghost use Rattle.answer.specs.Answers.{written};
ghost use Rattle.record.specs.Chain.{joined};
ghost use Rattle.geometry.specs.Tiles.{tile_count};
ghost use Rattle.geometry.specs.Sizes.{stored_size, element_bytes, plain_tile_length};
ghost use Rattle.check_header.specs.Stages.{check_front};
ghost use Rattle.check_header.specs.Ceilings.{most_tiles};
ghost use Rattle.written_records.specs.Pieces.{section};
ghost use Rattle.written_records.specs.Tile.{tile_record};
ghost use Rattle.lay_down.specs.Page.{tile_records, laid_file};
ghost use Rattle.lay_down.specs.Answer.{lay_down_verdict};
ghost use Rattle.lay_down.specs.Ready.{TilesReady};
ghost use Rattle.lay_down.specs.Sheet.{score_element, front_fits, tile_top, tile_left, tile_unread, kept_tiles, tile_cells, sheet_cells, sheet_laid, sheet_file, ScoresReady};

use crate::{TILE, page};
use answer::Refusal;
use check_header::stages;
use geometry::tiles;
use header::{entries, fields};
use score_sheets;
use score_sheets::parts;
use wire::writing;
use written_records::pieces;

// The most tiles that a page has (stage 4).
const MOST_TILES: usize = 65536;

// Whether a front, or a page, has one element only, a Short whose fill is -1.
pub fn score_element(s: &[u8]) -> bool
    ensures { result ≡ score_element s.now }
{
    if fields::element_count(s) != 1 {
        return false;
    }
    let x = entries::element(s, 0);
    if x.kind != entries::SHORT {
        return false;
    }
    x.fill == score_sheets::UNREAD
}

// Whether a front has the sheet's grid, and such an element.
fn front_fits(front: &[u8], sheet: &[u8]) -> bool
    ensures { result ≡ front_fits front.now sheet.now }
{
    if fields::grid_rows(front) != score_sheets::sheet_rows(sheet) {
        return false;
    }
    if fields::grid_columns(front) != score_sheets::sheet_columns(sheet) {
        return false;
    }
    score_element(front)
}

// The first row and the first column of a tile.
#[derive(Clone, Copy)]
struct Corner {
    row: u32,
    column: u32,
}

fn corner_of(front: &[u8], tile: u32) -> Corner
    requires { (check_front front.now ≡ Ok tt) × (tile < most_tiles) }
    ensures row { result.row ≡ tile_top front.now tile }
    ensures column { result.column ≡ tile_left front.now tile }
{
    let across = tiles::tiles_across(front);
    let down = tiles::quotient(tile, across);
    let right = tiles::remainder(tile, across);
    Corner {
        row: down * fields::tile_rows(front),
        column: right * fields::tile_columns(front),
    }
}

// Whether each score of a tile is -1.
fn tile_unread(front: &[u8], sheet: &[u8], tile: u32) -> bool
    requires { (check_front front.now ≡ Ok tt) × (tile < most_tiles) }
    ensures { result ≡ tile_unread front.now sheet.now tile }
{
    let a = corner_of(front, tile);
    let rows = fields::tile_rows(front);
    let columns = fields::tile_columns(front);
    parts::part_unread(sheet, a.row, a.column, rows, columns)
}

// A tile that has a score is kept, behind n others; how many those are then.
fn keep_tile(front: &[u8], sheet: &[u8], tile: u32, n: usize, list: &mut [u32]) -> usize
    requires { (check_front front.now ≡ Ok tt) × ((tile < most_tiles) × (n < length list.old)) }
    ensures count { result ≡ pick (tile_unread front.now sheet.now tile) n (n + 1) }
    ensures list { list.new ≡ pick (tile_unread front.now sheet.now tile) list.old (set list.old n tile) }
{
    if tile_unread(front, sheet, tile) {
        return n;
    }
    list[n] = tile;
    n + 1
}

// The tiles that are kept, in the first places of a list of numbers; how many there are.
fn kept_tiles(front: &[u8], sheet: &[u8], list: &mut [u32]) -> usize
    requires { (check_front front.now ≡ Ok tt) × (length list.old ≡ most_tiles) }
    ensures few { (result ≤ tile_count front.now) × (result ≤ length list.new) }
    ensures list { take result list.new ≡ kept_tiles front.now sheet.now }
{
    let count = tiles::tile_count(front) as u32;
    let mut n = 0;
    for tile in 0..count {
        n = keep_tile(front, sheet, tile, n, list);
    }
    n
}

// The section of a tile's scores, and where it ends.
fn put_score_section(out: &mut [u8], at: usize, front: &[u8], sheet: &[u8], tile: u32) -> usize
    requires { ScoresReady front.now tile (at + stored_size (element_bytes front.now 0)) (length out.old) }
    ensures end { result ≡ at + stored_size (element_bytes front.now 0) }
    ensures holds { out.new ≡ put out.old at (section (tile_cells front.now sheet.now tile)) }
{
    let a = corner_of(front, tile);
    let rows = fields::tile_rows(front);
    let columns = fields::tile_columns(front);
    let u = rows * columns * 2;
    let pad = pieces::padding(u as usize);
    let end = at + 4 + u as usize;
    writing::put_u32(out, at, u);
    parts::put_scores(out, at + 4, sheet, a.row, a.column, rows, columns);
    writing::put_zeros(out, end, pad);
    end + pad
}

// The tile record of an index, n bytes long.
fn put_score_tile(out: &mut [u8], at: usize, n: usize, front: &[u8], sheet: &[u8], tile: u32)
    requires { ScoresReady front.now tile (at + n) (length out.old) × (n ≡ plain_tile_length front.now) }
    ensures { out.new ≡ put out.old at (tile_record front.now tile (tile_cells front.now sheet.now tile)) }
{
    let flag = fields::checksum_enabled(front);
    pieces::put_head(out, at, n as u32, TILE);
    writing::put_u32(out, at + 8, tile);
    let end = put_score_section(out, at + 12, front, sheet, tile);
    pieces::close(out, at, end, n, flag);
}

// A tile record for each tile that is kept, n bytes each, behind the front.
fn put_score_tiles(out: &mut [u8], n: usize, front: &[u8], sheet: &[u8], kept: &[u32])
    requires ready { TilesReady front.now kept.now (sheet_cells front.now sheet.now) (length out.old) }
    requires kept { (n ≡ plain_tile_length front.now) × ((kept.now ≡ kept_tiles front.now sheet.now) × (score_element front.now ≡ true)) }
    ensures { out.new ≡ put out.old (length front.now) (joined (tile_records front.now kept.now (sheet_cells front.now sheet.now))) }
{
    let mut at = front.len();
    for tile in kept {
        put_score_tile(out, at, n, front, sheet, *tile);
        at += n;
    }
}

// The whole file.
fn put_sheet(front: &[u8], time: u64, sheet: &[u8], kept: &[u32], file: &mut [u8])
    requires passes { lay_down_verdict front.now time kept.now (sheet_cells front.now sheet.now) (length file.old) ≡ Ok tt }
    requires kept { (kept.now ≡ kept_tiles front.now sheet.now) × (score_element front.now ≡ true) }
    ensures { file.new ≡ put file.old 0 (laid_file front.now time kept.now (sheet_cells front.now sheet.now)) }
{
    let n = page::tile_length(front);
    let at = page::directory_start(front, kept.len());
    page::put_front(file, front, time, at as u64 + 8);
    put_score_tiles(file, n, front, sheet, kept);
    page::put_directory(file, at, n, front, kept);
}

// A sheet that is right, with a front that fits it. `list` has a place for each tile that a page may have.
fn lay_kept(
    front: &[u8],
    time: u64,
    sheet: &[u8],
    list: &mut [u32],
    file: &mut [u8],
) -> Result<usize, Refusal>
    requires fits { (check_front front.now ≡ Ok tt) × ((sheet_right sheet.now ≡ true) × (front_fits front.now sheet.now ≡ true)) }
    requires list { (1 ≤ time) × (length list.old ≡ most_tiles) }
    ensures answer { result ≡ sheet_laid front.now time sheet.now (length file.old) }
    ensures buffer { file.new ≡ written result (sheet_file front.now time sheet.now) file.old }
{
    let n = kept_tiles(front, sheet, list);
    let kept = &list[..n];
    let room = file.len();
    match page::length_verdict(front, kept, room) {
        Err(r) => Err(r),
        Ok(()) => {
            put_sheet(front, time, sheet, kept, file);
            Ok(page::file_length(front, kept.len()))
        }
    }
}

// The same, with the list in this call's own memory; 12 if the time is zero.
fn lay_right_sheet(front: &[u8], time: u64, sheet: &[u8], file: &mut [u8]) -> Result<usize, Refusal>
    requires { (check_front front.now ≡ Ok tt) × ((sheet_right sheet.now ≡ true) × (front_fits front.now sheet.now ≡ true)) }
    ensures answer { result ≡ sheet_laid front.now time sheet.now (length file.old) }
    ensures buffer { file.new ≡ written result (sheet_file front.now time sheet.now) file.old }
{
    if time == 0 {
        return Err(Refusal::Input);
    }
    let mut list = [0u32; MOST_TILES];
    lay_kept(front, time, sheet, &mut list, file)
}

// A sheet, with a front that passes its own stages.
fn lay_sheet(front: &[u8], time: u64, sheet: &[u8], file: &mut [u8]) -> Result<usize, Refusal>
    requires { check_front front.now ≡ Ok tt }
    ensures answer { result ≡ sheet_laid front.now time sheet.now (length file.old) }
    ensures buffer { file.new ≡ written result (sheet_file front.now time sheet.now) file.old }
{
    if score_sheets::sheet_right(sheet) {
        if front_fits(front, sheet) {
            return lay_right_sheet(front, time, sheet, file);
        }
        return Err(Refusal::Input);
    }
    Err(Refusal::Input)
}

// Moves a sheet into a page with a front, at the time modified.
pub fn lay_down_sheet(
    front: &[u8],
    time: u64,
    sheet: &[u8],
    file: &mut [u8],
) -> Result<usize, Refusal>
    ensures answer { result ≡ sheet_laid front.now time sheet.now (length file.old) }
    ensures buffer { file.new ≡ written result (sheet_file front.now time sheet.now) file.old }
{
    match stages::check_front(front) {
        Err(r) => Err(r),
        Ok(()) => lay_sheet(front, time, sheet, file),
    }
}
