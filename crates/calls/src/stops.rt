// The calls that stop after a number of byte stores (Req 05): each answers as the call does, a refusal too, and makes the first stores of
// the call.
ghost use Rattle.std.specs.Prelude.{◌≡◌};
ghost use Rattle.correct.specs.Calls.{Call, change_of, answer_by, stopped_by, made_by};

use crate::{StoppedCall, judging, on};

pub fn open_page_stopped(buf: &mut [u8], n: usize, time: u64, stores: usize) -> StoppedCall
    ensures answer { result.answer ≡ answer_by (change_of (Call.Opening time) buf.old n) }
    ensures made { result.made ≡ made_by stores (change_of (Call.Opening time) buf.old n) }
    ensures buffer { buf.new ≡ stopped_by stores (change_of (Call.Opening time) buf.old n) buf.old }
{
    match judging::on_accepted_page(buf, n) {
        Err(r) => StoppedCall {
            answer: Err(r),
            made: 0,
        },
        Ok(()) => on::open_on(buf, n, time, stores),
    }
}

pub fn store_tile_stopped(
    buf: &mut [u8],
    n: usize,
    tile: u64,
    cells: &[u8],
    stores: usize,
) -> StoppedCall
    ensures answer { result.answer ≡ answer_by (change_of (Call.Storing tile cells.now) buf.old n) }
    ensures made { result.made ≡ made_by stores (change_of (Call.Storing tile cells.now) buf.old n) }
    ensures buffer { buf.new ≡ stopped_by stores (change_of (Call.Storing tile cells.now) buf.old n) buf.old }
{
    match judging::on_open_page(buf, n) {
        Err(r) => StoppedCall {
            answer: Err(r),
            made: 0,
        },
        Ok(()) => on::store_on(buf, n, tile, cells, stores),
    }
}

pub fn remove_tile_stopped(buf: &mut [u8], n: usize, tile: u64, stores: usize) -> StoppedCall
    ensures answer { result.answer ≡ answer_by (change_of (Call.Removing tile) buf.old n) }
    ensures made { result.made ≡ made_by stores (change_of (Call.Removing tile) buf.old n) }
    ensures buffer { buf.new ≡ stopped_by stores (change_of (Call.Removing tile) buf.old n) buf.old }
{
    match judging::on_open_page(buf, n) {
        Err(r) => StoppedCall {
            answer: Err(r),
            made: 0,
        },
        Ok(()) => on::remove_on(buf, n, tile, stores),
    }
}

pub fn close_page_stopped(buf: &mut [u8], n: usize, time: u64, stores: usize) -> StoppedCall
    ensures answer { result.answer ≡ answer_by (change_of (Call.Closing time) buf.old n) }
    ensures made { result.made ≡ made_by stores (change_of (Call.Closing time) buf.old n) }
    ensures buffer { buf.new ≡ stopped_by stores (change_of (Call.Closing time) buf.old n) buf.old }
{
    match judging::on_open_page(buf, n) {
        Err(r) => StoppedCall {
            answer: Err(r),
            made: 0,
        },
        Ok(()) => on::close_on(buf, n, time, stores),
    }
}
