// Stage 6: what stands where the records end, if the file does not end there.
#![tactic(auto, using(reasons::proofs::ReasonLaws::chain), unfolding(crate::specs::RecordRows::extent_rows, crate::specs::RecordRows::type_rows, crate::specs::RecordRows::record_rows))]

ghost use Rattle.std.specs.Prelude.{◌≡◌, ◌<◌, true, length};
ghost use Rattle.record.specs.Chain.{records};
ghost use Rattle.reasons.specs.Rows.{first_failing};
ghost use Rattle.record_reasons.specs.RecordRows.{extent_rows, type_rows, record_rows, chain_rows};

use reasons::{Fault, rows};
use record::chain;

// The test that every record passes.
#[derive(Clone, Copy)]
struct Every;

impl chain::Test for Every {
    ghost passes = { λ t s x. true };

    fn test(&self, _seen: chain::Seen<'_>) -> bool {
        true
    }
}

// How many records stand behind the header.
fn good_records(s: &[u8]) -> usize
    ensures { result ≡ length (records s.now) }
{
    chain::count(s, &Every)
}

fn extent(s: &[u8], k: u64, at: usize) -> Result<(), Fault>
    requires { at < length s.now }
    ensures { result ≡ first_failing (extent_rows s.now k at) }
{
    let place = at as u64;
    let n = wire::u32_at(s, at) as u64;
    rows::at_least(33, k, place, n, 16)?;
    rows::at_most(34, k, place, n, wire::LARGEST_INTEGER as u64)?;
    rows::eighths(35, k, place, n)?;
    rows::at_most(36, k, place, place + n, s.len() as u64)
}

fn type_row(s: &[u8], k: u64, at: usize) -> Result<(), Fault>
    requires { at < length s.now }
    ensures { result ≡ first_failing (type_rows s.now k at) }
{
    let place = (at + 4) as u64;
    let kind = wire::byte_off(s, at, 4) as u64;
    rows::at_most(37, k, place, kind, record::TILE_DIRECTORY as u64)
}

fn record_rows(s: &[u8], k: u64, at: usize) -> Result<(), Fault>
    requires { at < length s.now }
    ensures { result ≡ first_failing (record_rows s.now k at) }
{
    extent(s, k, at)?;
    type_row(s, k, at)
}

// Stage 6.
pub fn chain_end(s: &[u8]) -> Result<(), Fault>
    ensures { result ≡ first_failing (chain_rows s.now) }
{
    let end = chain::records_end(s);
    if s.len() <= end {
        return Ok(());
    }
    let k = good_records(s) as u64;
    record_rows(s, k, end)
}
