// Stages 6 to 8: the start of the first record that fails.
ghost use Rattle.std.specs.Prelude.{◌≡◌, not};
ghost use Rattle.record.specs.Record.{Told};
ghost use Rattle.record.specs.Chain.{records};
ghost use Rattle.check_records.specs.Faults.{body_right, right_of, first_wrong, chain_fault, checksum_fault, body_fault};

use crate::{Rule, checksum, metadata_body, tile_body};
use record::chain;

// Stage 6.
pub fn chain_fault(s: &[u8]) -> Option<usize>
    ensures { result ≡ chain_fault s.now }
{
    let end = chain::records_end(s);
    if end < s.len() {
        return Some(end);
    }
    None
}

// Stage 8 of one record, of a type and length.
fn body_right(s: &[u8], kind: u32, at: usize, length: usize) -> bool
    requires { Told s.now kind at length }
    ensures { result ≡ body_right s.now at }
{
    if kind == record::TILE {
        return tile_body::tile_right(s, at);
    }
    if kind == record::METADATA {
        return metadata_body::metadata_right(s, at);
    }
    true
}

// Whether a record keeps a rule.
fn keeps(s: &[u8], rule: Rule, kind: u32, at: usize, length: usize) -> bool
    requires { Told s.now kind at length }
    ensures { result ≡ right_of s.now rule at }
{
    match rule {
        Rule::Checksum => checksum::checksum_right(s, kind, at, length),
        Rule::Body => body_right(s, kind, at, length),
    }
}

// The test for a record that does not.
#[derive(Clone, Copy)]
struct Wrong {
    rule: Rule,
}

impl chain::Test for Wrong {
    ghost passes = { λ t s x. not (right_of s t.rule x) };

    fn test(&self, seen: chain::Seen<'_>) -> bool {
        !keeps(seen.file, self.rule, seen.kind, seen.start, seen.length)
    }
}

// The first one behind the header.
fn first_wrong(s: &[u8], rule: Rule) -> Option<usize>
    ensures { result ≡ first_wrong s.now rule (records s.now) }
{
    chain::find(s, chain::header_end(s), &Wrong { rule })
}

// Stage 7: the header first.
pub fn checksum_fault(s: &[u8]) -> Option<usize>
    ensures { result ≡ checksum_fault s.now }
{
    let kind = wire::byte_at(s, 20);
    let length = wire::u32_at(s, 16) as usize;
    if keeps(s, Rule::Checksum, kind, 16, length) {
        return first_wrong(s, Rule::Checksum);
    }
    Some(16)
}

// Stage 8.
pub fn body_fault(s: &[u8]) -> Option<usize>
    ensures { result ≡ body_fault s.now }
{
    first_wrong(s, Rule::Body)
}
