// Stages 1 to 5: the first rule that is broken.
#![tactic(auto, using(crate::proofs::ReasonLaws::chain), unfolding(crate::specs::HeadRows::identification_rows, crate::specs::HeadRows::version_rows, crate::specs::HeadRows::frame_rows, crate::specs::HeadRows::side_rows, crate::specs::HeadRows::all_side_rows, crate::specs::HeadRows::option_rows, crate::specs::HeadRows::count_rows, crate::specs::HeadRows::twin_rows, crate::specs::HeadRows::text_row, crate::specs::HeadRows::text_rows, crate::specs::HeadRows::element_rows, crate::specs::HeadRows::end_rows, crate::specs::HeadRows::outer_rows, crate::specs::HeadRows::middle_rows, crate::specs::HeadRows::inner_rows, crate::specs::HeadRows::ceiling_rows, crate::specs::HeadRows::opened_rows))]

ghost use Rattle.std.specs.Prelude.{◌≡◌, ◌+◌, ◌*◌, ◌≤◌, length};
ghost use Rattle.header.specs.Element.{entry_start, entries_read, longest_entry};
ghost use Rattle.check_header.specs.HeaderRecord.{names_differ};
ghost use Rattle.reasons.specs.Rows.{judged, first_failing, rows_below};
ghost use Rattle.reasons.specs.Stages.{explained};
ghost use Rattle.reasons.specs.HeadRows.{identification_rows, version_rows, frame_rows, side_rows, all_side_rows, option_rows, count_rows, twin_rows, text_row, text_rows, element_rows, end_rows, tail_rows, header_rows, outer_rows, middle_rows, inner_rows, ceiling_rows, opened_rows, head_stages};

use crate::{Explanation, Fault, places, rows};
use answer::Refusal;
use geometry::{sizes, tiles};
use header::{entries, fields, names, tail, texts};
use record::chain;

#[tactic(auto, using(crate::proofs::ReasonLaws::chain), unfolding(crate::specs::HeadRows::identification_rows, check_header::specs::Identification::mark))]
fn identification(s: &[u8]) -> Result<(), Fault>
    ensures { result ≡ first_failing (identification_rows s.now) }
{
    rows::at_least(1, 0, 0, s.len() as u64, 16)?;
    let marked = wire::same_bytes(wire::part_of(s, 0, 12), b"gvrs raster\0");
    rows::holds(2, 0, 0, 0, 0, marked)
}

fn version(s: &[u8]) -> Result<(), Fault>
    ensures { result ≡ first_failing (version_rows s.now) }
{
    rows::equal(3, 0, 12, wire::byte_at(s, 12) as u64, 1)?;
    rows::equal(4, 0, 13, wire::byte_at(s, 13) as u64, 4)
}

fn frame(s: &[u8]) -> Result<(), Fault>
    ensures { result ≡ first_failing (frame_rows s.now) }
{
    let n = fields::header_length(s) as u64;
    rows::eighths(5, 0, 16, n)?;
    rows::at_most(6, 0, 16, n, wire::LARGEST_INTEGER as u64)?;
    rows::at_most(7, 0, 16, chain::header_end(s) as u64, s.len() as u64)?;
    rows::equal(
        8,
        0,
        20,
        fields::header_type(s) as u64,
        record::HEADER as u64,
    )
}

fn side(i: u64, at: u64, x: u32) -> Result<(), Fault>
    ensures { result ≡ first_failing (side_rows i at x) }
{
    rows::at_least(9, i, at, x as u64, 1)?;
    rows::at_most(10, i, at, x as u64, wire::LARGEST_INTEGER as u64)
}

fn sides(s: &[u8]) -> Result<(), Fault>
    ensures { result ≡ first_failing (all_side_rows s.now) }
{
    side(0, 104, fields::grid_rows(s))?;
    side(1, 108, fields::grid_columns(s))?;
    side(2, 112, fields::tile_rows(s))?;
    side(3, 116, fields::tile_columns(s))
}

fn options(s: &[u8]) -> Result<(), Fault>
    ensures { result ≡ first_failing (option_rows s.now) }
{
    rows::at_most(11, 0, 128, fields::checksum_enabled(s) as u64, 1)?;
    rows::at_most(12, 0, 129, fields::raster_space(s) as u64, 2)?;
    rows::at_most(13, 0, 130, fields::coordinate_system(s) as u64, 2)
}

fn counts(s: &[u8]) -> Result<(), Fault>
    ensures { result ≡ first_failing (count_rows s.now) }
{
    let n = fields::element_count(s) as u64;
    rows::at_least(14, 0, 280, n, 1)?;
    rows::at_most(15, 0, 280, n, wire::LARGEST_INTEGER as u64)?;
    let end = entries::entry_start(s, entries::entries_read(s));
    rows::at_most(16, 0, 284, end as u64, fields::header_limit(s) as u64)
}

fn names_apart(s: &[u8], e: usize, d: usize) -> bool
    ensures { result ≡ names_differ s.now e d }
{
    let x = entries::element(s, d);
    let y = entries::element(s, e);
    if names::same_name(s, x.name, x.name_length, s, y.name, y.name_length) {
        return false;
    }
    true
}

fn twin(s: &[u8], e: usize, d: usize) -> Result<(), Fault>
    ensures { result ≡ first_failing (twin_rows s.now e d) }
{
    let y = entries::element(s, e);
    rows::holds(
        19,
        e as u64,
        y.name as u64,
        d as u64,
        0,
        names_apart(s, e, d),
    )
}

fn twins(s: &[u8], e: usize) -> Result<(), Fault>
    ensures { result ≡ first_failing (rows_below e (twin_rows s.now e)) }
{
    for d in 0..e {
        twin(s, e, d)?;
    }
    Ok(())
}

fn text(s: &[u8], rule: u32, e: usize, p: usize) -> Result<(), Fault>
    requires { p ≤ length s.now + 4 * longest_entry }
    ensures { result ≡ judged (text_row s.now rule e p) }
{
    let kept = texts::text_right(s, p);
    let found = wire::u16_at(s, p) as u64;
    rows::holds(rule, e as u64, (p + 2) as u64, found, 0, kept)
}

#[tactic(auto, using(crate::proofs::ReasonLaws::chain), unfolding(crate::specs::HeadRows::text_rows, header::specs::Element::description_at, header::specs::Element::unit_at, header::specs::Element::string_end))]
fn three_texts(s: &[u8], e: usize) -> Result<(), Fault>
    ensures { result ≡ first_failing (text_rows s.now e (entry_start s.now e)) }
{
    let label = places::label_of(s, e);
    let description = label + entries::string_size(s, label);
    let unit = description + entries::string_size(s, description);
    text(s, 20, e, label)?;
    text(s, 21, e, description)?;
    text(s, 22, e, unit)
}

#[tactic(auto, using(crate::proofs::ReasonLaws::chain), unfolding(crate::specs::HeadRows::element_rows, header::specs::Element::element_name))]
fn one_element(s: &[u8], e: usize) -> Result<(), Fault>
    ensures { result ≡ first_failing (element_rows s.now e) }
{
    let x = entries::element(s, e);
    rows::at_most(
        17,
        e as u64,
        entries::entry_start(s, e) as u64,
        x.kind as u64,
        entries::SHORT as u64,
    )?;
    let named = names::identifier_at(s, x.name, x.name_length, names::LONGEST);
    rows::holds(
        18,
        e as u64,
        x.name as u64,
        x.name_length as u64,
        names::LONGEST as u64,
        named,
    )?;
    twins(s, e)?;
    three_texts(s, e)
}

fn elements(s: &[u8]) -> Result<(), Fault>
    ensures { result ≡ first_failing (rows_below (entries_read s.now) (element_rows s.now)) }
{
    for e in 0..entries::entries_read(s) {
        one_element(s, e)?;
    }
    Ok(())
}

#[tactic(auto, using(crate::proofs::ReasonLaws::chain), unfolding(crate::specs::HeadRows::end_rows, header::specs::Tail::fields_end, header::specs::Element::string_end))]
fn end(s: &[u8]) -> Result<(), Fault>
    ensures { result ≡ first_failing (end_rows s.now) }
{
    let label = tail::product_label_at(s);
    let end = label + entries::string_size(s, label) + 8;
    let limit = fields::header_limit(s) as u64;
    rows::at_most(
        23,
        0,
        places::methods_from(s) as u64,
        tail::method_count(s) as u64,
        wire::LARGEST_INTEGER as u64,
    )?;
    rows::at_most(24, 0, label as u64, end as u64, limit)?;
    rows::at_most(25, 0, end as u64, limit, (end + 7) as u64)?;
    text(s, 26, 0, label)
}

fn behind_entries(s: &[u8]) -> Result<(), Fault>
    ensures { result ≡ first_failing (tail_rows s.now) }
{
    if entries::MOST_ELEMENTS < fields::element_count(s) {
        return Ok(());
    }
    end(s)
}

#[tactic(auto, using(crate::proofs::ReasonLaws::chain), unfolding(crate::specs::HeadRows::header_rows))]
fn header_record(s: &[u8]) -> Result<(), Fault>
    ensures { result ≡ first_failing (header_rows s.now) }
{
    frame(s)?;
    sides(s)?;
    options(s)?;
    counts(s)?;
    elements(s)?;
    behind_entries(s)
}

fn outer_ceilings(s: &[u8]) -> Result<(), Fault>
    ensures { result ≡ first_failing (outer_rows s.now) }
{
    rows::at_most(27, 0, 0, s.len() as u64, 16777216)?;
    rows::at_most(28, 0, 104, fields::grid_rows(s) as u64, 65536)?;
    rows::at_most(28, 1, 108, fields::grid_columns(s) as u64, 65536)
}

fn middle_ceilings(s: &[u8]) -> Result<(), Fault>
    ensures { result ≡ first_failing (middle_rows s.now) }
{
    rows::at_most(28, 2, 112, fields::tile_rows(s) as u64, 4096)?;
    rows::at_most(28, 3, 116, fields::tile_columns(s) as u64, 4096)
}

fn inner_ceilings(s: &[u8]) -> Result<(), Fault>
    ensures { result ≡ first_failing (inner_rows s.now) }
{
    rows::at_most(29, 0, 104, tiles::tile_count(s), 65536)?;
    rows::at_most(
        30,
        0,
        280,
        fields::element_count(s) as u64,
        entries::MOST_ELEMENTS as u64,
    )?;
    rows::at_most(31, 0, 112, sizes::tile_bytes(s), 1048576)
}

fn ceilings(s: &[u8]) -> Result<(), Fault>
    ensures { result ≡ first_failing (ceiling_rows s.now) }
{
    outer_ceilings(s)?;
    middle_ceilings(s)?;
    inner_ceilings(s)
}

fn opened(s: &[u8]) -> Result<(), Fault>
    ensures { result ≡ first_failing (opened_rows s.now) }
{
    rows::equal(32, 0, 48, fields::time_opened(s), 0)
}

// Stages 1 to 5.
#[tactic(auto, using(crate::proofs::StageLaws::stages), unfolding(crate::specs::HeadRows::head_stages))]
pub fn explain_head(s: &[u8]) -> Result<(), Explanation>
    ensures { result ≡ explained (head_stages s.now) }
{
    rows::refused_by(Refusal::Identification, identification(s))?;
    rows::refused_by(Refusal::Version, version(s))?;
    rows::refused_by(Refusal::Header, header_record(s))?;
    rows::refused_by(Refusal::Ceiling, ceilings(s))?;
    rows::refused_by(Refusal::Opened, opened(s))
}
