// Stage 9: what is asked of each record of a type, and the first that does not keep it.
#![tactic(auto, using(reasons::proofs::ReasonLaws::chain), unfolding(crate::specs::DirectoryRows::other_rows, crate::specs::DirectoryRows::listed_tile_rows, bodies::specs::TileRecord::tile_index))]

ghost use Rattle.std.specs.Prelude.{◌≡◌, ℕ, List, true, ◌<◌, length};
ghost use Rattle.record.specs.Chain.{records_of};
ghost use Rattle.record.specs.Types.{free_type, metadata_type, tile_type};
ghost use Rattle.bodies.specs.ListDirectories.{free_count, metadata_count};
ghost use Rattle.check_lists.specs.FileSpace.{free_entry_is, free_fits};
ghost use Rattle.check_lists.specs.Metadata.{metadata_entry_is, metadata_fits};
ghost use Rattle.check_lists.specs.inner.Search.{listed_kind, list_count, list_fits, list_entry_is};
ghost use Rattle.reasons.specs.Rows.{Row, first_failing};
ghost use Rattle.explain.specs.DirectoryRows.{rows_over, other_rows, listed_tile_rows, once_rows};
ghost use Rattle.explain.specs.Asked.{Asks, Tells};

use crate::listed;
use bodies::tile_directory;
use check_lists::ListKind;
use reasons::{Fault, rows};
use record::{Cursor, Step, chain};

// The record at a position, number k of its type, is the one that a reference gives.
fn other_row(s: &[u8], rule: u32, reference: u64, k: u64, at: usize) -> Result<(), Fault>
    requires { at < length s.now }
    ensures { result ≡ first_failing (other_rows rule reference k at) }
{
    let place = at as u64;
    rows::equal(rule, k, place, place + 8, reference)
}

// The tile record at a position is listed at its own index.
fn listed_row(s: &[u8], k: u64, at: usize) -> Result<(), Fault>
    requires { at < length s.now }
    ensures { result ≡ first_failing (listed_tile_rows s.now k at) }
{
    let i = wire::u32_off(s, at, 8);
    let found = tile_directory::tile_reference(s, i);
    let place = at as u64;
    rows::equal(58, i as u64, place, found, place + 8)
}

// Of each record of a type: what is asked takes its number and its start.
fn over<F: Fn(u64, usize) -> Result<(), Fault>>(s: &[u8], kind: u32, ask: F) -> Result<(), Fault>
    requires { Asks s.now (F.pre ask) }
    ensures { (f : ℕ → ℕ → List Row) → Tells s.now (F.post ask) f → result ≡ first_failing (rows_over f 0 (records_of s.now kind)) }
{
    let mut c = Cursor {
        at: chain::header_end(s),
    };
    let mut k: u64 = 0;
    loop {
        let Step::Record {
            kind: own,
            start,
            length: _,
            next,
        } = c.step(s)
        else {
            return Ok(());
        };
        if own == kind {
            ask(k, start)?;
            k += 1;
        }
        c = next;
    }
}

// No record of a type but the one that a reference gives.
pub fn others(s: &[u8], kind: u32, rule: u32, reference: u64) -> Result<(), Fault>
    ensures { result ≡ first_failing (rows_over (other_rows rule reference) 0 (records_of s.now kind)) }
{
    over(s, kind, |k, at| other_row(s, rule, reference, k, at))
}

// Every tile record is listed at its own index.
pub fn tile_records_listed(s: &[u8]) -> Result<(), Fault>
    ensures { result ≡ first_failing (rows_over (listed_tile_rows s.now) 0 (records_of s.now tile_type)) }
{
    over(s, record::TILE, |k, at| listed_row(s, k, at))
}

// Every record of a list's type is listed once.
fn once(s: &[u8], kind: u32, rule: u32, list: ListKind) -> Result<(), Fault>
    requires { (list_fits s.now list ≡ true) × (kind ≡ listed_kind list) }
    ensures { result ≡ first_failing (rows_over (once_rows rule (list_count s.now list) (list_entry_is s.now list)) 0 (records_of s.now kind)) }
{
    let from = listed::asked_from(s, list);
    over(
        s,
        kind,
        |k, at| listed::once_from(s, rule, list, from, k, at),
    )
}

// Every metadata record is.
pub(crate) fn metadata_once(s: &[u8]) -> Result<(), Fault>
    requires { metadata_fits s.now ≡ true }
    ensures { result ≡ first_failing (rows_over (once_rows 66 (metadata_count s.now) (metadata_entry_is s.now)) 0 (records_of s.now metadata_type)) }
{
    once(s, record::METADATA, 66, ListKind::Metadata)
}

// Every free-space record is.
pub(crate) fn free_once(s: &[u8]) -> Result<(), Fault>
    requires { free_fits s.now ≡ true }
    ensures { result ≡ first_failing (rows_over (once_rows 75 (free_count s.now) (free_entry_is s.now)) 0 (records_of s.now free_type)) }
{
    once(s, record::FREE, 75, ListKind::FreeSpace)
}
