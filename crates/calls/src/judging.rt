// What each call is judged by, before it stores a byte, and what it is then to do. The order of the refusals is that of Req 03, readings 2
// and 3.
ghost use Rattle.std.specs.Prelude.{◌≡◌, true, Ok};
ghost use Rattle.answer.specs.Refusals.{unless_refused};
ghost use Rattle.correct.specs.Front.{page_in, workable};
ghost use Rattle.correct.specs.Answers.{time_then, room_left, on_open_page, on_accepted_page, answered};
ghost use Rattle.correct.specs.Calls.{Call, line_of, change_on, answer_by};
ghost use Rattle.calls.specs.Layouts.{plan_of, judged_of};

use crate::{Judged, Plan, lengths, reading};
use answer::Refusal;
use check_header::ceilings;
use geometry::{sizes, tiles};
use page_check;
use writable;

// The page's length, then whether it is accepted: 12, then the check's refusal.
pub(crate) fn on_accepted_page(buf: &[u8], n: usize) -> Result<(), Refusal>
    ensures { result ≡ on_accepted_page buf.now n (Ok tt) }
{
    if buf.len() < n {
        return Err(Refusal::Input);
    }
    page_check::check(wire::part_of(buf, 0, n))
}

// The page's length, then whether it is open for writing: 12, then 15.
pub fn on_open_page(buf: &[u8], n: usize) -> Result<(), Refusal>
    ensures { result ≡ on_open_page buf.now n (Ok tt) }
{
    if buf.len() < n {
        return Err(Refusal::Input);
    }
    if writable::is_open(wire::part_of(buf, 0, n)) {
        return Ok(());
    }
    Err(Refusal::NotOpen)
}

// Of the length that the page would have: 13, then 4.
fn room_left(buf: &[u8], m: usize) -> Result<(), Refusal>
    ensures { result ≡ room_left buf.now m }
{
    if buf.len() < m {
        return Err(Refusal::Room);
    }
    if ceilings::MOST_FILE_BYTES < m {
        return Err(Refusal::Ceiling);
    }
    Ok(())
}

// Of a time that is given besides, zero refused with 12 first; with the length.
fn timed(buf: &[u8], time: u64, m: usize) -> Result<usize, Refusal>
    ensures { result ≡ answered (time_then time (room_left buf.now m)) m }
{
    if time == 0 {
        return Err(Refusal::Input);
    }
    match room_left(buf, m) {
        Err(r) => Err(r),
        Ok(()) => Ok(m),
    }
}

// Of a plan, with what is to be done.
fn planned_in(buf: &[u8], plan: Plan) -> Judged
    ensures { result ≡ unless_refused Judged.Refused (room_left buf.now plan.long) (Judged.Planned plan) }
{
    match room_left(buf, plan.long) {
        Err(r) => Judged::Refused(r),
        Ok(()) => Judged::Planned(plan),
    }
}

// Opening: 12, then 13 and 4.
pub(crate) fn judge_open(buf: &[u8], n: usize, time: u64) -> Result<usize, Refusal>
    ensures { result ≡ answer_by (change_on (Call.Opening time) buf.now n) }
{
    let s = wire::part_of(buf, 0, n);
    if reading::is_workable(s) {
        return timed(buf, time, lengths::opened_length(s));
    }
    Err(Refusal::NotOpen)
}

// Storing, where every call's demands are met: 10, 12, then 13 and 4.
fn judge_tile(buf: &[u8], n: usize, tile: u64, cells: &[u8]) -> Judged
    requires { workable (page_in buf.now n) ≡ true }
    ensures { result ≡ unless_refused Judged.Refused (line_of (Call.Storing tile cells.now) buf.now (page_in buf.now n)).verdict (Judged.Planned (plan_of (page_in buf.now n) tile)) }
{
    let s = wire::part_of(buf, 0, n);
    if tiles::tile_count(s) <= tile {
        return Judged::Refused(Refusal::OutsideGrid);
    }
    if cells.len() as u64 != sizes::tile_bytes(s) {
        return Judged::Refused(Refusal::Input);
    }
    planned_in(buf, lengths::plan_tile(s, tile as u32))
}

pub(crate) fn judge_store(buf: &[u8], n: usize, tile: u64, cells: &[u8]) -> Judged
    ensures { result ≡ judged_of buf.now n tile cells.now }
{
    if reading::is_workable(wire::part_of(buf, 0, n)) {
        return judge_tile(buf, n, tile, cells);
    }
    Judged::Refused(Refusal::NotOpen)
}

// Removing: 10.
pub(crate) fn judge_remove(buf: &[u8], n: usize, tile: u64) -> Result<usize, Refusal>
    ensures { result ≡ answer_by (change_on (Call.Removing tile) buf.now n) }
{
    let s = wire::part_of(buf, 0, n);
    if reading::is_workable(s) {
        if tiles::tile_count(s) <= tile {
            return Err(Refusal::OutsideGrid);
        }
        return Ok(s.len());
    }
    Err(Refusal::NotOpen)
}

// Closing: 12, then 13 and 4.
pub(crate) fn judge_close(buf: &[u8], n: usize, time: u64) -> Result<usize, Refusal>
    ensures { result ≡ answer_by (change_on (Call.Closing time) buf.now n) }
{
    let s = wire::part_of(buf, 0, n);
    if reading::is_workable(s) {
        return timed(buf, time, lengths::closed_length(s));
    }
    Err(Refusal::NotOpen)
}
