// Whether a plan of new starts is right, and how long the page would then be.
ghost use Rattle.std.specs.Prelude.{◌≡◌, Ok};
ghost use Rattle.correct.specs.Plan.{start_right, planned_end};
ghost use Rattle.correct.specs.Answers.{plan_then, answered};

use crate::kept;
use answer::Refusal;
use record::chain;

// One new start p, of the record at x, behind what ends at e. What is not up is small, so no sum wraps.
fn start_right(e: usize, x: usize, p: u64) -> bool
    ensures { result ≡ start_right e x p }
{
    if p % 8 != 0 {
        return false;
    }
    if (x as u64) < p {
        return false;
    }
    if p < e as u64 {
        return false;
    }
    let gap = p - e as u64;
    if gap == 0 {
        return true;
    }
    if gap < 16 {
        return false;
    }
    true
}

// One walk over the records that are kept: the length that the page would have, or 12.
pub fn check_plan(s: &[u8], plan: &[u64]) -> Result<usize, Refusal>
    ensures { result ≡ answered (plan_then s.now plan.now (Ok tt)) (planned_end s.now plan.now) }
{
    let mut at = chain::header_end(s);
    let mut e = at;
    let mut k = 0;
    while k < plan.len() {
        let p = plan[k];
        match kept::next_kept(s, at) {
            None => return Err(Refusal::Input),
            Some(x) => {
                if start_right(e, x, p) {
                    let n = wire::u32_at(s, x) as usize;
                    at = x + n;
                    e = p as usize + n;
                    k += 1;
                } else {
                    return Err(Refusal::Input);
                }
            }
        }
    }
    match kept::next_kept(s, at) {
        None => Ok(e),
        Some(_) => Err(Refusal::Input),
    }
}
