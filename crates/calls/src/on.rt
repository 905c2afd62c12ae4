// The calls without the check of the page, and that stop after a number of byte stores: for who makes many calls on a page that was judged
// once. The page is taken to be accepted, or open for writing; on other bytes they answer and store what the definitions say of these.
ghost use Rattle.std.specs.Prelude.{◌≡◌};
ghost use Rattle.correct.specs.Calls.{Call, change_on, answer_by, stopped_by, made_by};

use crate::{Judged, StoppedCall, closing, judging, opening, removing, storing};

// Opens a page that is taken to be accepted.
pub fn open_on(buf: &mut [u8], n: usize, time: u64, stores: usize) -> StoppedCall
    ensures answer { result.answer ≡ answer_by (change_on (Call.Opening time) buf.old n) }
    ensures made { result.made ≡ made_by stores (change_on (Call.Opening time) buf.old n) }
    ensures buffer { buf.new ≡ stopped_by stores (change_on (Call.Opening time) buf.old n) buf.old }
{
    match judging::judge_open(buf, n, time) {
        Err(r) => StoppedCall {
            answer: Err(r),
            made: 0,
        },
        Ok(m) => {
            let left = opening::opening_cut(buf, n, time, stores);
            StoppedCall {
                answer: Ok(m),
                made: stores - left,
            }
        }
    }
}

// Stores a tile in a page that is taken to be open for writing.
pub fn store_on(buf: &mut [u8], n: usize, tile: u64, cells: &[u8], stores: usize) -> StoppedCall
    ensures answer { result.answer ≡ answer_by (change_on (Call.Storing tile cells.now) buf.old n) }
    ensures made { result.made ≡ made_by stores (change_on (Call.Storing tile cells.now) buf.old n) }
    ensures buffer { buf.new ≡ stopped_by stores (change_on (Call.Storing tile cells.now) buf.old n) buf.old }
{
    match judging::judge_store(buf, n, tile, cells) {
        Judged::Refused(r) => StoppedCall {
            answer: Err(r),
            made: 0,
        },
        Judged::Planned(plan) => {
            let left = storing::storing_cut(buf, n, tile as u32, plan, cells, stores);
            StoppedCall {
                answer: Ok(plan.long),
                made: stores - left,
            }
        }
    }
}

// Removes a tile of such a page.
pub fn remove_on(buf: &mut [u8], n: usize, tile: u64, stores: usize) -> StoppedCall
    ensures answer { result.answer ≡ answer_by (change_on (Call.Removing tile) buf.old n) }
    ensures made { result.made ≡ made_by stores (change_on (Call.Removing tile) buf.old n) }
    ensures buffer { buf.new ≡ stopped_by stores (change_on (Call.Removing tile) buf.old n) buf.old }
{
    match judging::judge_remove(buf, n, tile) {
        Err(r) => StoppedCall {
            answer: Err(r),
            made: 0,
        },
        Ok(m) => {
            let left = removing::removing_cut(buf, n, tile as u32, stores);
            StoppedCall {
                answer: Ok(m),
                made: stores - left,
            }
        }
    }
}

// Closes such a page.
pub fn close_on(buf: &mut [u8], n: usize, time: u64, stores: usize) -> StoppedCall
    ensures answer { result.answer ≡ answer_by (change_on (Call.Closing time) buf.old n) }
    ensures made { result.made ≡ made_by stores (change_on (Call.Closing time) buf.old n) }
    ensures buffer { buf.new ≡ stopped_by stores (change_on (Call.Closing time) buf.old n) buf.old }
{
    match judging::judge_close(buf, n, time) {
        Err(r) => StoppedCall {
            answer: Err(r),
            made: 0,
        },
        Ok(m) => {
            let left = closing::closing_cut(buf, n, time, stores);
            StoppedCall {
                answer: Ok(m),
                made: stores - left,
            }
        }
    }
}
