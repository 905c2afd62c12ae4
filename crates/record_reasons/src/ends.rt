// Stage 8: where a record's fields end.
#![tactic(auto, using(reasons::proofs::ReasonLaws::chain), unfolding(crate::specs::RecordRows::ending_rows))]

ghost use Rattle.std.specs.Prelude.{◌≡◌, ◌+◌, ◌-◌, ◌*◌, ◌≤◌, length};
ghost use Rattle.geometry.specs.Sizes.{least_length, cap};
ghost use Rattle.reasons.specs.Rows.{first_failing};
ghost use Rattle.record_reasons.specs.RecordRows.{ending_rows};

use reasons::{Fault, rows};
use record::frame;

// How much more one number is than another; 0 where it is not.
pub fn surplus(a: usize, b: usize) -> usize
    ensures is { result ≡ a - b }
    ensures small { result ≤ a }
{
    if a < b {
        return 0;
    }
    a - b
}

// The least length of a record whose fields end at `end`.
fn least_of(s: &[u8], at: usize, end: usize) -> u64
    requires { end ≤ length s.now + 2 * cap }
    ensures { result ≡ least_length (end - at) }
{
    let n = surplus(end, at) as u64;
    (n + 4 + 7) / 8 * 8
}

// The fields of record k end at `end`.
pub(crate) fn ending(s: &[u8], k: u64, at: usize, end: usize) -> Result<(), Fault>
    requires { end ≤ length s.now + 2 * cap }
    ensures { result ≡ first_failing (ending_rows s.now k at end) }
{
    let place = at as u64;
    let limit = frame::record_limit(s, at) as u64;
    rows::at_most(41, k, place, end as u64, limit)?;
    let found = wire::u32_at(s, at) as u64;
    rows::equal(42, k, place, found, least_of(s, at, end))
}
