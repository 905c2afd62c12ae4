// Stages 1 to 5 in their order.
ghost use Rattle.std.specs.Prelude.{◌≡◌, Ok};
ghost use Rattle.answer.specs.declared.Refusal.TheVariants.{Opened};
ghost use Rattle.answer.specs.Refusals.{gate};
ghost use Rattle.check_header.specs.HeaderRecord.{header_right};
ghost use Rattle.check_header.specs.Stages.{closed, next_two, front_right, check_header, check_front};

use crate::{ceilings, header_record, identification};
use answer::Refusal;
use header::fields;
use record::chain;

// Stages 3 to 5.
pub fn last_three(s: &[u8], length: usize) -> Result<(), Refusal>
    ensures { result ≡ next_two s.now length (header_right s.now length) (gate (closed s.now) Opened (Ok tt)) }
{
    if header_record::header_right(s, length) {
        if ceilings::within_ceilings(s, length) {
            if fields::time_opened(s) == 0 {
                return Ok(());
            }
            return Err(Refusal::Opened);
        }
        return Err(Refusal::Ceiling);
    }
    Err(Refusal::Header)
}

// Stages 1 to 5, of a file's bytes and its length.
pub fn check_header(s: &[u8], length: usize) -> Result<(), Refusal>
    ensures { result ≡ check_header s.now length }
{
    if identification::is_identified(s, length) {
        if identification::version_right(s) {
            return last_three(s, length);
        }
        return Err(Refusal::Version);
    }
    Err(Refusal::Identification)
}

// Stage 3 of a front: no byte more than the header's.
fn front_right(s: &[u8]) -> bool
    ensures { result ≡ front_right s.now }
{
    if header_record::header_right(s, s.len()) {
        if chain::header_end(s) != s.len() {
            return false;
        }
        return true;
    }
    false
}

// Stages 1 to 4, of a front by itself.
pub fn check_front(s: &[u8]) -> Result<(), Refusal>
    ensures { result ≡ check_front s.now }
{
    if identification::is_identified(s, s.len()) {
        if identification::version_right(s) {
            if front_right(s) {
                if ceilings::within_ceilings(s, s.len()) {
                    return Ok(());
                }
                return Err(Refusal::Ceiling);
            }
            return Err(Refusal::Header);
        }
        return Err(Refusal::Version);
    }
    Err(Refusal::Identification)
}
