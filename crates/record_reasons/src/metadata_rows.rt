// Stage 8: the body of a metadata record.
#![tactic(auto, using(reasons::proofs::ReasonLaws::chain), unfolding(crate::specs::RecordRows::described_rows, crate::specs::RecordRows::metadata_body_rows))]

ghost use Rattle.std.specs.Prelude.{◌≡◌, ◌+◌, ◌≤◌, ◌<◌, length};
ghost use Rattle.wire.specs.Bytes.{u16_at, largest_integer};
ghost use Rattle.header.specs.Names.{identifier, longest_name};
ghost use Rattle.header.specs.Element.{longest_string};
ghost use Rattle.geometry.specs.Sizes.{cap};
ghost use Rattle.bodies.specs.MetadataRecord.{record_id_at, content_length_at, metadata_length, metadata_description_at, metadata_end, metadata_name, data_type};
ghost use Rattle.reasons.specs.Rows.{judged, first_failing, at_most, holds};
ghost use Rattle.reasons.specs.HeadRows.{text_row};
ghost use Rattle.record_reasons.specs.RecordRows.{ending_rows, described_rows, metadata_body_rows};

use crate::ends;
use bodies::metadata_record;
use check_records::metadata_body;
use header::{entries, names, texts};
use reasons::{Fault, rows};

// Where the content's length stands.
fn content_length_at(s: &[u8], at: usize) -> usize
    requires { at < length s.now }
    ensures is { result ≡ content_length_at s.now at }
    ensures near { result ≤ at + 13 + longest_string }
{
    metadata_record::record_id_start(s, at) + 5
}

// Where the description stands.
fn description_from(s: &[u8], at: usize) -> usize
    requires { at < length s.now }
    ensures is { result ≡ metadata_description_at s.now at }
    ensures near { result ≤ at + 17 + longest_string + cap }
{
    let p = content_length_at(s, at);
    p + 4 + wire::u32_at(s, p) as usize
}

fn length_row(s: &[u8], k: u64, at: usize) -> Result<(), Fault>
    requires { at < length s.now }
    ensures { result ≡ judged (at_most 45 k (content_length_at s.now at) (metadata_length s.now at) largest_integer) }
{
    let p = content_length_at(s, at);
    let n = wire::u32_at(s, p) as u64;
    rows::at_most(45, k, p as u64, n, wire::LARGEST_INTEGER as u64)
}

fn metadata_ending(s: &[u8], k: u64, at: usize) -> Result<(), Fault>
    requires { at < length s.now }
    ensures { result ≡ first_failing (ending_rows s.now k at (metadata_end s.now at)) }
{
    let d = description_from(s, at);
    let end = d + entries::string_size(s, d);
    ends::ending(s, k, at, end)
}

fn name_row(s: &[u8], k: u64, at: usize) -> Result<(), Fault>
    requires { at < length s.now }
    ensures { result ≡ judged (holds 46 k (at + 10) (u16_at s.now (at + 8)) longest_name (identifier longest_name (metadata_name s.now at))) }
{
    let name = metadata_record::metadata_name(s, at);
    let named = names::is_identifier(name, names::LONGEST);
    let n = wire::u16_off(s, at, 8) as u64;
    rows::holds(46, k, (at + 10) as u64, n, names::LONGEST as u64, named)
}

fn data_type_row(s: &[u8], k: u64, at: usize) -> Result<(), Fault>
    requires { at < length s.now }
    ensures { result ≡ judged (at_most 47 k (record_id_at s.now at + 4) (data_type s.now at) 9) }
{
    let p = metadata_record::record_id_start(s, at);
    let found = metadata_record::data_type(s, at) as u64;
    rows::at_most(47, k, (p + 4) as u64, found, 9)
}

fn description_row(s: &[u8], k: u64, at: usize) -> Result<(), Fault>
    requires { at < length s.now }
    ensures { result ≡ judged (text_row s.now 48 k (metadata_description_at s.now at)) }
{
    let p = description_from(s, at);
    let kept = texts::text_right(s, p);
    let found = wire::u16_at(s, p) as u64;
    rows::holds(48, k, (p + 2) as u64, found, 0, kept)
}

fn described_fields(s: &[u8], k: u64, at: usize) -> Result<(), Fault>
    requires { at < length s.now }
    ensures { result ≡ first_failing (described_rows s.now k at) }
{
    name_row(s, k, at)?;
    data_type_row(s, k, at)?;
    description_row(s, k, at)
}

// Metadata record k, field by field.
fn metadata_fields(s: &[u8], k: u64, at: usize) -> Result<(), Fault>
    requires { at < length s.now }
    ensures { result ≡ first_failing (metadata_body_rows s.now k at) }
{
    length_row(s, k, at)?;
    metadata_ending(s, k, at)?;
    described_fields(s, k, at)
}

// Metadata record k. Fields are asked one by one only of a record that the check refuses.
pub(crate) fn metadata_record_rows(s: &[u8], k: u64, at: usize) -> Result<(), Fault>
    requires { at < length s.now }
    ensures { result ≡ first_failing (metadata_body_rows s.now k at) }
{
    if metadata_body::metadata_right(s, at) {
        return Ok(());
    }
    metadata_fields(s, k, at)
}
