// Both starts of each record in one number: while records move, a plan is the only memory of where they were.
ghost use Rattle.std.specs.Prelude.{◌≡◌};
ghost use Rattle.correct.specs.Plan.{kept_starts};
ghost use Rattle.plans.specs.Moved.{both_in, both_starts, new_starts};

use crate::kept;
use record::chain;

// The old start above, the new one below.
fn both_in(x: u64, p: u64) -> u64
    ensures { result ≡ both_in x p }
{
    p % 4294967296 + 4294967296 * (x % 4294967296)
}

// A plan of new starts takes the old ones in.
pub fn pack(s: &[u8], plan: &mut [u64])
    ensures { plan.new ≡ both_starts (kept_starts s.now) plan.old }
{
    let mut at = chain::header_end(s);
    let mut k = 0;
    while k < plan.len() {
        match kept::next_kept(s, at) {
            None => return,
            Some(x) => {
                plan[k] = both_in(x as u64, plan[k]);
                at = x + wire::u32_at(s, x) as usize;
                k += 1;
            }
        }
    }
}

// And lets them go.
pub fn unpack(plan: &mut [u64])
    ensures { plan.new ≡ new_starts plan.old }
{
    let mut k = 0;
    while k < plan.len() {
        plan[k] = plan[k] % 4294967296;
        k += 1;
    }
}
