// Stage 8: the body of a tile record.
#![tactic(auto, using(reasons::proofs::ReasonLaws::chain), unfolding(crate::specs::RecordRows::tile_body_rows, bodies::specs::TileRecord::tile_index))]

ghost use Rattle.std.specs.Prelude.{◌≡◌, ◌<◌, length};
ghost use Rattle.wire.specs.Bytes.{u32_at};
ghost use Rattle.header.specs.Fields.{element_count};
ghost use Rattle.geometry.specs.Sizes.{cap};
ghost use Rattle.bodies.specs.TileRecord.{tile_end};
ghost use Rattle.reasons.specs.Rows.{first_failing, rows_below};
ghost use Rattle.record_reasons.specs.RecordRows.{ending_rows, section_rows, tile_body_rows};

use crate::ends;
use bodies::tile_record;
use check_records::tile_body;
use geometry::{sizes, tiles};
use header::fields;
use reasons::{Fault, rows};

// The number of four bytes at a position.
fn length_from(s: &[u8], p: usize) -> u32
    ensures is { result ≡ u32_at s.now p }
    ensures small { result < cap }
{
    wire::u32_at(s, p)
}

// The length of element e.
fn section(s: &[u8], at: usize, e: u32) -> Result<(), Fault>
    requires { at < length s.now }
    ensures { result ≡ first_failing (section_rows s.now at e) }
{
    let p = tile_record::section_start(s, at, e);
    let l = length_from(s, p);
    let most = sizes::element_bytes(s, e as usize);
    rows::at_least(43, e as u64, p as u64, l as u64, 1)?;
    rows::at_most(44, e as u64, p as u64, l as u64, most)
}

// The lengths of all elements.
fn sections(s: &[u8], at: usize) -> Result<(), Fault>
    requires { at < length s.now }
    ensures { result ≡ first_failing (rows_below (element_count s.now) (section_rows s.now at)) }
{
    for e in 0..fields::element_count(s) {
        section(s, at, e)?;
    }
    Ok(())
}

// Where they end.
fn sections_end(s: &[u8], k: u64, at: usize) -> Result<(), Fault>
    requires { at < length s.now }
    ensures { result ≡ first_failing (ending_rows s.now k at (tile_end s.now at)) }
{
    let end = tile_record::section_start(s, at, fields::element_count(s));
    ends::ending(s, k, at, end)
}

// Tile record k, field by field.
fn tile_fields(s: &[u8], k: u64, at: usize) -> Result<(), Fault>
    requires { at < length s.now }
    ensures { result ≡ first_failing (tile_body_rows s.now k at) }
{
    let i = wire::u32_off(s, at, 8) as u64;
    let place = (at + 8) as u64;
    rows::at_most(39, k, place, i, wire::LARGEST_INTEGER as u64)?;
    rows::at_most(40, k, place, i + 1, tiles::tile_count(s))?;
    sections_end(s, k, at)?;
    sections(s, at)
}

// Tile record k. Fields are asked one by one only of a record that the check refuses.
pub(crate) fn tile_record_rows(s: &[u8], k: u64, at: usize) -> Result<(), Fault>
    requires { at < length s.now }
    ensures { result ≡ first_failing (tile_body_rows s.now k at) }
{
    if tile_body::tile_right(s, at) {
        return Ok(());
    }
    tile_fields(s, k, at)
}
