// A correction log replayed on an open page (Req 14): the page and the whole log are judged once, and then each entry is the call of Req
// 03, made without a check of the page.
#![tactic(auto)]

ghost use Rattle.std.specs.Prelude.{◌≡◌, Ok};
ghost use Rattle.geometry.specs.Sizes.{tile_bytes};
ghost use Rattle.correct.specs.Front.{page_in};
ghost use Rattle.correct.specs.Calls.{change_on, answer_by, stopped_by};
ghost use Rattle.replay.specs.Entries.{call_at};
ghost use Rattle.replay.specs.Replay.{replay_verdict, outcome_of, told, replay_answer, replay_out, replayed_number, replayed_length, replayed_entries};

use answer::Refusal;
use calls::on;
use geometry::{sizes, tiles};

// What a replay answers: the page's length and the number of entries, all of them, or those done before the one that was refused and
// stopped it; or the refusal before the first.
#[derive(Clone, Copy)]
pub enum Replayed {
    Done {
        length: usize,
        entries: usize,
    },
    Stopped {
        refusal: Refusal,
        length: usize,
        entries: usize,
    },
    Refused(Refusal),
}

// 0 where it went to the end, else the refusal's number.
pub fn replayed_number(x: Replayed) -> u32
    ensures { result ≡ replayed_number x }
{
    match x {
        Replayed::Done {
            length: _,
            entries: _,
        } => 0,
        Replayed::Stopped {
            refusal,
            length: _,
            entries: _,
        } => answer::refusal_number(refusal),
        Replayed::Refused(r) => answer::refusal_number(r),
    }
}

// The page's length, or the place of the refusal before the first entry.
pub fn replayed_length(x: Replayed) -> usize
    ensures { result ≡ replayed_length x }
{
    match x {
        Replayed::Done { length, entries: _ } => length,
        Replayed::Stopped {
            refusal: _,
            length,
            entries: _,
        } => length,
        Replayed::Refused(r) => answer::refusal_place(r),
    }
}

// The entries done.
pub fn replayed_entries(x: Replayed) -> usize
    ensures { result ≡ replayed_entries x }
{
    match x {
        Replayed::Done { length: _, entries } => entries,
        Replayed::Stopped {
            refusal: _,
            length: _,
            entries,
        } => entries,
        Replayed::Refused(_) => 0,
    }
}

// Before the page is touched: its length, whether it is open for writing, and the whole log: 12, 15, 12.
fn judge_replay(buf: &[u8], n: usize, log: &[u8]) -> Result<(), Refusal>
    ensures { result ≡ replay_verdict buf.now n log.now }
{
    if buf.len() < n {
        return Err(Refusal::Input);
    }
    let s = wire::part_of(buf, 0, n);
    if writable::is_open(s) {
        if correction_logs::log_right(log, tiles::tile_count(s), sizes::tile_bytes(s) as usize) {
            return Ok(());
        }
        return Err(Refusal::Input);
    }
    Err(Refusal::NotOpen)
}

// One entry, of a tile of so many bytes: its call on the page, which is taken to be open for writing.
fn do_entry(buf: &mut [u8], n: usize, log: &[u8], at: usize, long: usize) -> Result<usize, Refusal>
    ensures answer { result ≡ answer_by (change_on (call_at long log.now at) buf.old n) }
    ensures buffer { buf.new ≡ stopped_by 18446744073709551615 (change_on (call_at long log.now at) buf.old n) buf.old }
{
    let tile = correction_logs::entry_tile(log, at) as u64;
    if correction_logs::is_store(log, at) {
        let cells = correction_logs::entry_cells(log, long, at);
        let x = on::store_on(buf, n, tile, cells, calls::ALL);
        return x.answer;
    }
    let x = on::remove_on(buf, n, tile, calls::ALL);
    x.answer
}

// The entries one behind the other, up to the first that is refused.
fn do_entries(buf: &mut [u8], n: usize, log: &[u8], long: usize) -> Replayed
    requires { (replay_verdict buf.old n log.now ≡ Ok tt) × (long ≡ tile_bytes (page_in buf.old n)) }
    ensures answer { result ≡ told (outcome_of buf.old n log.now) }
    ensures buffer { buf.new ≡ (outcome_of buf.old n log.now).state.buffer }
{
    let mut at = correction_logs::ENTRIES;
    let mut length = n;
    let mut entries = 0;
    while at < log.len() {
        match do_entry(buf, length, log, at, long) {
            Err(refusal) => {
                return Replayed::Stopped {
                    refusal,
                    length,
                    entries,
                };
            }
            Ok(m) => {
                length = m;
                entries += 1;
                at = correction_logs::end_of_entry(log, long, at);
            }
        }
    }
    Replayed::Done { length, entries }
}

// Replays a log on the open page in the first n bytes of the buffer.
pub fn replay(buf: &mut [u8], n: usize, log: &[u8]) -> Replayed
    ensures answer { result ≡ replay_answer buf.old n log.now }
    ensures buffer { buf.new ≡ replay_out buf.old n log.now }
{
    match judge_replay(buf, n, log) {
        Err(r) => Replayed::Refused(r),
        Ok(()) => {
            let long = sizes::tile_bytes(wire::part_of(buf, 0, n)) as usize;
            do_entries(buf, n, log, long)
        }
    }
}
