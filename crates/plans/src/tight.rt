// The plan that slides every record against the one before it.
ghost use Rattle.std.specs.Prelude.{◌≡◌, ◌≤◌, length, Ok};
ghost use Rattle.wire.specs.Bytes.{put};
ghost use Rattle.correct.specs.Plan.{kept_starts, planned_end, tight_plan};
ghost use Rattle.correct.specs.Answers.{answered};
ghost use Rattle.plans.specs.Tight.{starts_then};

use crate::kept;
use answer::Refusal;
use record::chain;

// Its starts put into a list that has room for them, and where the last record then ends.
fn lay_tight(s: &[u8], plan: &mut [u64]) -> usize
    requires { length (kept_starts s.now) ≤ length plan.old }
    ensures end { result ≡ planned_end s.now (tight_plan s.now) }
    ensures plan { plan.new ≡ put plan.old 0 (tight_plan s.now) }
{
    let mut at = chain::header_end(s);
    let mut e = at;
    let mut k = 0;
    loop {
        match kept::next_kept(s, at) {
            None => return e,
            Some(x) => {
                let n = wire::u32_at(s, x) as usize;
                plan[k] = e as u64;
                at = x + n;
                e += n;
                k += 1;
            }
        }
    }
}

// The same where there is room, else 13 and the list as it was: what does not fit is not put.
pub fn tight_plan(s: &[u8], plan: &mut [u64]) -> Result<usize, Refusal>
    ensures answer { result ≡ answered (starts_then s.now plan.old (Ok tt)) (planned_end s.now (tight_plan s.now)) }
    ensures plan { plan.new ≡ put plan.old 0 (tight_plan s.now) }
{
    if plan.len() < kept::kept_count(s) {
        return Err(Refusal::Room);
    }
    Ok(lay_tight(s, plan))
}
