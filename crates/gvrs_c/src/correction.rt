// A page corrected where it lies, correction logs, and the calls that stop after a number of byte stores.
ghost use Rattle.std.specs.Prelude.{◌≡◌, [], ◌∷◌};
ghost use Rattle.answer.specs.Answers.{laid_number};
ghost use Rattle.correct.specs.Calls.{Call, change_of, answer_by, out_by, stopped_by, made_by};
ghost use Rattle.replay.specs.Replay.{replay_answer, replay_out, replayed_number, replayed_length, replayed_entries};
ghost use Rattle.gvrs_c.specs.Report.{reported, laid_report};

use calls::{StoppedCall, stops};
use replay::Replayed;

// Opens the page in the first n bytes of the buffer for writing.
#[unsafe(no_mangle)]
pub extern "C" fn gvrs_open_page(file: &mut [u8], n: u64, time: u64, out: &mut [u64]) -> u32
    ensures number { result ≡ laid_number (answer_by (change_of (Call.Opening time) file.old n)) }
    ensures length { out.new ≡ reported (laid_report (answer_by (change_of (Call.Opening time) file.old n)) ∷ []) out.old }
    ensures buffer { file.new ≡ out_by (change_of (Call.Opening time) file.old n) file.old }
{
    let x = calls::open_page(file, n as usize, time);
    crate::tell_laid(x, out)
}

// Stores a tile, whole and uncompressed, in the open page.
#[unsafe(no_mangle)]
pub extern "C" fn gvrs_store_tile(
    file: &mut [u8],
    n: u64,
    tile: u64,
    cells: &[u8],
    out: &mut [u64],
) -> u32
    ensures number { result ≡ laid_number (answer_by (change_of (Call.Storing tile cells.now) file.old n)) }
    ensures length { out.new ≡ reported (laid_report (answer_by (change_of (Call.Storing tile cells.now) file.old n)) ∷ []) out.old }
    ensures buffer { file.new ≡ out_by (change_of (Call.Storing tile cells.now) file.old n) file.old }
{
    let x = calls::store_tile(file, n as usize, tile, cells);
    crate::tell_laid(x, out)
}

// Removes a tile of the open page.
#[unsafe(no_mangle)]
pub extern "C" fn gvrs_remove_tile(file: &mut [u8], n: u64, tile: u64, out: &mut [u64]) -> u32
    ensures number { result ≡ laid_number (answer_by (change_of (Call.Removing tile) file.old n)) }
    ensures length { out.new ≡ reported (laid_report (answer_by (change_of (Call.Removing tile) file.old n)) ∷ []) out.old }
    ensures buffer { file.new ≡ out_by (change_of (Call.Removing tile) file.old n) file.old }
{
    let x = calls::remove_tile(file, n as usize, tile);
    crate::tell_laid(x, out)
}

// Closes the open page.
#[unsafe(no_mangle)]
pub extern "C" fn gvrs_close_page(file: &mut [u8], n: u64, time: u64, out: &mut [u64]) -> u32
    ensures number { result ≡ laid_number (answer_by (change_of (Call.Closing time) file.old n)) }
    ensures length { out.new ≡ reported (laid_report (answer_by (change_of (Call.Closing time) file.old n)) ∷ []) out.old }
    ensures buffer { file.new ≡ out_by (change_of (Call.Closing time) file.old n) file.old }
{
    let x = calls::close_page(file, n as usize, time);
    crate::tell_laid(x, out)
}

// The same of a replay; out[1] takes the number of entries done.
fn tell_replayed(x: Replayed, out: &mut [u64]) -> u32
    ensures number { result ≡ replayed_number x }
    ensures numbers { out.new ≡ reported (replayed_length x ∷ replayed_entries x ∷ []) out.old }
{
    crate::report(out, 0, replay::replayed_length(x) as u64);
    crate::report(out, 1, replay::replayed_entries(x) as u64);
    replay::replayed_number(x)
}

// Replays a correction log on the open page, up to the first entry that is refused with 13 or 4.
#[unsafe(no_mangle)]
pub extern "C" fn gvrs_replay(file: &mut [u8], n: u64, log: &[u8], out: &mut [u64]) -> u32
    ensures number { result ≡ replayed_number (replay_answer file.old n log.now) }
    ensures numbers { out.new ≡ reported (replayed_length (replay_answer file.old n log.now) ∷ replayed_entries (replay_answer file.old n log.now) ∷ []) out.old }
    ensures buffer { file.new ≡ replay_out file.old n log.now }
{
    let x = replay::replay(file, n as usize, log);
    tell_replayed(x, out)
}

// The same of a call that stops; out[1] takes the number of byte stores that it has made.
pub(crate) fn tell_stopped(x: StoppedCall, out: &mut [u64]) -> u32
    ensures number { result ≡ laid_number x.answer }
    ensures numbers { out.new ≡ reported (laid_report x.answer ∷ x.made ∷ []) out.old }
{
    let answer = x.answer;
    crate::tell_laid_and(answer, x.made, out)
}

// Opens the page, and stops after a number of byte stores.
#[unsafe(no_mangle)]
pub extern "C" fn gvrs_open_page_stopped(
    file: &mut [u8],
    n: u64,
    time: u64,
    stores: u64,
    out: &mut [u64],
) -> u32
    ensures number { result ≡ laid_number (answer_by (change_of (Call.Opening time) file.old n)) }
    ensures numbers { out.new ≡ reported (laid_report (answer_by (change_of (Call.Opening time) file.old n)) ∷ made_by stores (change_of (Call.Opening time) file.old n) ∷ []) out.old }
    ensures buffer { file.new ≡ stopped_by stores (change_of (Call.Opening time) file.old n) file.old }
{
    let x = stops::open_page_stopped(file, n as usize, time, stores as usize);
    tell_stopped(x, out)
}

// Stores a tile, and stops after a number of byte stores.
#[unsafe(no_mangle)]
pub extern "C" fn gvrs_store_tile_stopped(
    file: &mut [u8],
    n: u64,
    tile: u64,
    cells: &[u8],
    stores: u64,
    out: &mut [u64],
) -> u32
    ensures number { result ≡ laid_number (answer_by (change_of (Call.Storing tile cells.now) file.old n)) }
    ensures numbers { out.new ≡ reported (laid_report (answer_by (change_of (Call.Storing tile cells.now) file.old n)) ∷ made_by stores (change_of (Call.Storing tile cells.now) file.old n) ∷ []) out.old }
    ensures buffer { file.new ≡ stopped_by stores (change_of (Call.Storing tile cells.now) file.old n) file.old }
{
    let x = stops::store_tile_stopped(file, n as usize, tile, cells, stores as usize);
    tell_stopped(x, out)
}

// Removes a tile, and stops after a number of byte stores.
#[unsafe(no_mangle)]
pub extern "C" fn gvrs_remove_tile_stopped(
    file: &mut [u8],
    n: u64,
    tile: u64,
    stores: u64,
    out: &mut [u64],
) -> u32
    ensures number { result ≡ laid_number (answer_by (change_of (Call.Removing tile) file.old n)) }
    ensures numbers { out.new ≡ reported (laid_report (answer_by (change_of (Call.Removing tile) file.old n)) ∷ made_by stores (change_of (Call.Removing tile) file.old n) ∷ []) out.old }
    ensures buffer { file.new ≡ stopped_by stores (change_of (Call.Removing tile) file.old n) file.old }
{
    let x = stops::remove_tile_stopped(file, n as usize, tile, stores as usize);
    tell_stopped(x, out)
}

// Closes the page, and stops after a number of byte stores.
#[unsafe(no_mangle)]
pub extern "C" fn gvrs_close_page_stopped(
    file: &mut [u8],
    n: u64,
    time: u64,
    stores: u64,
    out: &mut [u64],
) -> u32
    ensures number { result ≡ laid_number (answer_by (change_of (Call.Closing time) file.old n)) }
    ensures numbers { out.new ≡ reported (laid_report (answer_by (change_of (Call.Closing time) file.old n)) ∷ made_by stores (change_of (Call.Closing time) file.old n) ∷ []) out.old }
    ensures buffer { file.new ≡ stopped_by stores (change_of (Call.Closing time) file.old n) file.old }
{
    let x = stops::close_page_stopped(file, n as usize, time, stores as usize);
    tell_stopped(x, out)
}
