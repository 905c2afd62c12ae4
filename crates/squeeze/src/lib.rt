// Squeezing an open page (Req 11): a plan of new starts is judged, the tight one is made, and the page is squeezed, whole or stopped after
// a number of byte stores. The writers in the modules count on an open page and on a right plan.
//
// A plan that is lent to a call is its working space: while records move it holds old starts too. Whatever is answered it holds the same
// numbers when the call returns.
#![tactic(auto)]

mod fields;
mod finding;
mod moving;
mod records;
mod squeezing;

ghost use Rattle.std.specs.Prelude.{◌≡◌, true, ◌-◌};
ghost use Rattle.writable.specs.Writable.{open_for_writing};
ghost use Rattle.stores.specs.Stores.{store_count, stopped};
ghost use Rattle.correct.specs.Front.{page_in};
ghost use Rattle.correct.specs.Plan.{plan_right};
ghost use Rattle.correct.specs.Writes.{squeeze_writes};
ghost use Rattle.correct.specs.Calls.{Call, change_of, answer_by, out_by, stopped_by, made_by};
ghost use Rattle.plans.specs.Tight.{tight_answer, tight_count, tight_out};

use answer::Refusal;
use calls::{StoppedCall, judging};
use plans::{checking, kept, packing, tight};

// What the tight plan is answered by: the length that the page would have, or the refusal; and how many starts there are, also where the
// plan has no room for them.
#[derive(Clone, Copy)]
pub struct TightPlan {
    pub answer: Result<usize, Refusal>,
    pub starts: usize,
}

// The checker by itself: what squeezing by the plan answers.
pub fn check_plan(buf: &[u8], n: usize, plan: &[u64]) -> Result<usize, Refusal>
    ensures { result ≡ answer_by (change_of (Call.Squeezing plan.now) buf.now n) }
{
    match judging::on_open_page(buf, n) {
        Err(r) => Err(r),
        Ok(()) => checking::check_plan(wire::part_of(buf, 0, n), plan),
    }
}

// The plan that slides every record against the one before it: 12, 15, then 13 where the plan has less room than there are starts.
pub fn tight_plan(buf: &[u8], n: usize, plan: &mut [u64]) -> TightPlan
    ensures answer { result.answer ≡ tight_answer buf.now n plan.old }
    ensures starts { result.starts ≡ tight_count buf.now n }
    ensures plan { plan.new ≡ tight_out buf.now n plan.old }
{
    match judging::on_open_page(buf, n) {
        Err(r) => TightPlan {
            answer: Err(r),
            starts: 0,
        },
        Ok(()) => {
            let s = wire::part_of(buf, 0, n);
            let starts = kept::kept_count(s);
            let answer = tight::tight_plan(s, plan);
            TightPlan { answer, starts }
        }
    }
}

// The byte stores, with both starts of each record in the plan for as long as they take.
fn squeezing_cut(buf: &mut [u8], n: usize, plan: &mut [u64], k: usize) -> usize
    requires { (open_for_writing (page_in buf.old n) ≡ true) × (plan_right (page_in buf.old n) plan.old ≡ true) }
    ensures left { result ≡ k - store_count (squeeze_writes buf.old (page_in buf.old n) plan.old) }
    ensures holds { buf.new ≡ stopped k (squeeze_writes buf.old (page_in buf.old n) plan.old) buf.old }
    ensures plan { plan.new ≡ plan.old }
{
    packing::pack(wire::part_of(buf, 0, n), plan);
    let left = squeezing::squeeze_cut(buf, n, plan, k);
    packing::unpack(plan);
    left
}

// Squeezes the page, and stops after a number of byte stores into its buffer.
pub fn squeeze_page_stopped(
    buf: &mut [u8],
    n: usize,
    plan: &mut [u64],
    stores: usize,
) -> StoppedCall
    ensures answer { result.answer ≡ answer_by (change_of (Call.Squeezing plan.old) buf.old n) }
    ensures made { result.made ≡ made_by stores (change_of (Call.Squeezing plan.old) buf.old n) }
    ensures buffer { buf.new ≡ stopped_by stores (change_of (Call.Squeezing plan.old) buf.old n) buf.old }
    ensures plan { plan.new ≡ plan.old }
{
    match check_plan(buf, n, plan) {
        Err(r) => StoppedCall {
            answer: Err(r),
            made: 0,
        },
        Ok(m) => {
            let left = squeezing_cut(buf, n, plan, stores);
            StoppedCall {
                answer: Ok(m),
                made: stores - left,
            }
        }
    }
}

// Squeezes the page by a plan.
pub fn squeeze_page(buf: &mut [u8], n: usize, plan: &mut [u64]) -> Result<usize, Refusal>
    ensures answer { result ≡ answer_by (change_of (Call.Squeezing plan.old) buf.old n) }
    ensures buffer { buf.new ≡ out_by (change_of (Call.Squeezing plan.old) buf.old n) buf.old }
    ensures plan { plan.new ≡ plan.old }
{
    let x = squeeze_page_stopped(buf, n, plan, calls::ALL);
    x.answer
}
