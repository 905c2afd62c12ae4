// The first half of the check: stages 1 to 5, from the first bytes of a file and its stated length.
ghost use Rattle.std.specs.Prelude.{◌≡◌, min, Ok};
ghost use Rattle.answer.specs.declared.Refusal.TheVariants.{Opened, Incomplete};
ghost use Rattle.answer.specs.Refusals.{gate};
ghost use Rattle.check_header.specs.HeaderRecord.{header_right};
ghost use Rattle.check_header.specs.Stages.{closed, next_two};
ghost use Rattle.check_start.specs.Start.{given, header_given, check_start, needed};

use answer::Refusal;
use check_header::{header_record, identification, stages};
use record::chain;

// A stage that needs k bytes has them, or all of a shorter file.
fn is_given(s: &[u8], length: usize, k: usize) -> bool
    ensures { result ≡ given k s.now length }
{
    if s.len() < k {
        if s.len() < length {
            return false;
        }
    }
    true
}

// The whole header is there, if its length is lawful.
fn header_given(s: &[u8], length: usize) -> bool
    ensures { result ≡ header_given s.now length }
{
    if header_record::length_right(s, length) {
        if s.len() < chain::header_end(s) {
            return false;
        }
    }
    true
}

// Stages 3 to 5, where stages 1 and 2 pass.
fn behind_first_two(s: &[u8], length: usize) -> Result<(), Refusal>
    ensures { result ≡ gate (given 24 s.now length) Incomplete (gate (header_given s.now length) Incomplete (next_two s.now length (header_right s.now length) (gate (closed s.now) Opened (Ok tt)))) }
{
    if is_given(s, length, 24) {
        if header_given(s, length) {
            return stages::last_three(s, length);
        }
    }
    Err(Refusal::Incomplete)
}

// Stages 1 to 5, of the first bytes of a file and its stated length.
pub fn check_start(s: &[u8], length: usize) -> Result<(), Refusal>
    ensures { result ≡ check_start s.now length }
{
    if length < s.len() {
        return Err(Refusal::Input);
    }
    if is_given(s, length, 16) {
        if identification::is_identified(s, length) {
            if identification::version_right(s) {
                return behind_first_two(s, length);
            }
            return Err(Refusal::Version);
        }
        return Err(Refusal::Identification);
    }
    Err(Refusal::Incomplete)
}

fn least(a: usize, b: usize) -> usize
    ensures { result ≡ min a b }
{
    if a < b {
        return a;
    }
    b
}

// How many first bytes the stage needs that answers 16.
pub fn bytes_needed(s: &[u8], length: usize) -> usize
    ensures { result ≡ needed s.now length }
{
    if s.len() < 16 {
        return least(length, 16);
    }
    if s.len() < 24 {
        return least(length, 24);
    }
    least(length, chain::header_end(s))
}
