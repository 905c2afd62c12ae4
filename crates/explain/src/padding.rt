// Stage 9: the entries of a directory fit its record.
#![tactic(auto, using(crate::proofs::DirectoryLaws::padded))]

ghost use Rattle.std.specs.Prelude.{◌≡◌, ◌≤◌};
ghost use Rattle.reasons.specs.Rows.{first_failing};
ghost use Rattle.explain.specs.DirectoryRows.{farthest, padded_rows};

use reasons::{Fault, rows};
use record::frame;

// Entries that end at `end` fit the record at a position with 0 to 7 padding bytes.
pub(crate) fn padding(s: &[u8], rule: u32, at: usize, end: u64) -> Result<(), Fault>
    requires { (end ≤ farthest) × (rule ≤ 72) }
    ensures { result ≡ first_failing (padded_rows s.now rule at end) }
{
    let place = at as u64;
    let limit = frame::record_limit(s, at) as u64;
    rows::at_most(rule, 0, place, end, limit)?;
    rows::at_most(rule + 1, 0, place, limit, end + 7)
}
