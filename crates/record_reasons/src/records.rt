// Stages 7 and 8: the first record whose checksum is wrong, with the position of its checksum, what it is and what it has to be; and the
// first whose body is.
ghost use Rattle.std.specs.Prelude.{◌≡◌, ◌∷◌, ◌<◌, length};
ghost use Rattle.answer.specs.declared.Refusal.TheVariants.{Checksum, Body};
ghost use Rattle.record.specs.Record.{type_at, Told};
ghost use Rattle.record.specs.Chain.{records};
ghost use Rattle.check_records.specs.Checksum.{summed_bytes, checksum_of, checksum_at};
ghost use Rattle.reasons.specs.Rows.{first_failing};
ghost use Rattle.reasons.specs.Stages.{explained};
ghost use Rattle.record_reasons.specs.RecordRows.{Stands, checksum_rows, body_rows, stages_of};

use crate::{ends, metadata_rows, tile_rows};
use answer::Refusal;
use header::fields;
use reasons::{Explanation, Fault, rows};
use record::{Cursor, Step, chain};

// How many bytes of a record are summed.
fn summed_of(kind: u32, long: usize) -> usize
    ensures { result ≡ summed_bytes kind long }
{
    if kind == record::FREE {
        return 8;
    }
    ends::surplus(long, 4)
}

// What its last four bytes have to be.
fn right_checksum(s: &[u8], kind: u32, at: usize, long: usize) -> u32
    requires { Told s.now kind at long }
    ensures { result ≡ checksum_of s.now at }
{
    if fields::checksum_enabled(s) == 1 {
        return crc32c::crc_part(s, at, summed_of(kind, long));
    }
    0
}

// What they are.
fn stored_checksum(s: &[u8], kind: u32, at: usize, long: usize) -> u32
    requires { Told s.now kind at long }
    ensures { result ≡ checksum_at s.now at }
{
    wire::u32_off(s, at, ends::surplus(long, 4))
}

// The record of a type, from a position on, so many bytes long, is number k.
fn checksum_row(s: &[u8], k: u64, kind: u32, at: usize, long: usize) -> Result<(), Fault>
    requires { Stands s.now kind at long }
    ensures { result ≡ first_failing (checksum_rows s.now k at) }
{
    let found = stored_checksum(s, kind, at, long);
    let wanted = right_checksum(s, kind, at, long);
    let place = at + ends::surplus(long, 4);
    rows::equal(38, k, place as u64, found as u64, wanted as u64)
}

// The records behind the header.
fn checksums(s: &[u8]) -> Result<(), Explanation>
    ensures { result ≡ explained (stages_of Checksum (checksum_rows s.now) 1 (records s.now)) }
{
    let mut c = Cursor {
        at: chain::header_end(s),
    };
    let mut k: u64 = 1;
    loop {
        let Step::Record {
            kind,
            start,
            length: long,
            next,
        } = c.step(s)
        else {
            return Ok(());
        };
        let row = checksum_row(s, k, kind, start, long);
        rows::refused_by(Refusal::Checksum(start), row)?;
        c = next;
        k += 1;
    }
}

fn header_checksum(s: &[u8]) -> Result<(), Fault>
    ensures { result ≡ first_failing (checksum_rows s.now 0 16) }
{
    let kind = wire::byte_at(s, 20);
    let long = wire::u32_at(s, 16) as usize;
    checksum_row(s, 0, kind, 16, long)
}

// Stage 7: the header first.
pub fn all_checksums(s: &[u8]) -> Result<(), Explanation>
    ensures { result ≡ explained (stages_of Checksum (checksum_rows s.now) 0 (16 ∷ records s.now)) }
{
    rows::refused_by(Refusal::Checksum(16), header_checksum(s))?;
    checksums(s)
}

// The body of record k, of a type.
fn body_row(s: &[u8], k: u64, kind: u32, at: usize) -> Result<(), Fault>
    requires { (kind ≡ type_at s.now at) × (at < length s.now) }
    ensures { result ≡ first_failing (body_rows s.now k at) }
{
    if kind == record::TILE {
        return tile_rows::tile_record_rows(s, k, at);
    }
    if kind == record::METADATA {
        return metadata_rows::metadata_record_rows(s, k, at);
    }
    Ok(())
}

// Stage 8.
pub fn body_rows(s: &[u8]) -> Result<(), Explanation>
    ensures { result ≡ explained (stages_of Body (body_rows s.now) 0 (records s.now)) }
{
    let mut c = Cursor {
        at: chain::header_end(s),
    };
    let mut k: u64 = 0;
    loop {
        let Step::Record {
            kind,
            start,
            length: _,
            next,
        } = c.step(s)
        else {
            return Ok(());
        };
        rows::refused_by(Refusal::Body(start), body_row(s, k, kind, start))?;
        c = next;
        k += 1;
    }
}
