// The check: stages 1 to 9, and parts of it.
#![tactic(auto)]

ghost use Rattle.std.specs.Prelude.{◌≡◌, Ok};
ghost use Rattle.page_check.specs.Stages.{check_records, check_to_bodies, check_directories, check_from_records, check};
ghost use Rattle.page_check.specs.Halves.{check_rest};

use answer::Refusal;
use check_header::stages;
use check_lists::stage;
use check_records::faults;
use check_start::start;

// Stages 6 to 8.
pub fn check_records(s: &[u8]) -> Result<(), Refusal>
    ensures { result ≡ check_records s.now (Ok tt) }
{
    if let Some(place) = faults::chain_fault(s) {
        return Err(Refusal::Chain(place));
    }
    if let Some(place) = faults::checksum_fault(s) {
        return Err(Refusal::Checksum(place));
    }
    if let Some(place) = faults::body_fault(s) {
        return Err(Refusal::Body(place));
    }
    Ok(())
}

// Stages 1 to 8.
pub fn check_to_bodies(s: &[u8]) -> Result<(), Refusal>
    ensures { result ≡ check_to_bodies s.now }
{
    stages::check_header(s, s.len())?;
    check_records(s)
}

// Stage 9.
fn check_directories(s: &[u8]) -> Result<(), Refusal>
    ensures { result ≡ check_directories s.now }
{
    if stage::directories_right(s) {
        return Ok(());
    }
    Err(Refusal::Directory)
}

// Stages 6 to 9 alone: nothing is said of stages 1 to 5, so a file that is opened for writing can be asked too.
pub fn check_from_records(s: &[u8]) -> Result<(), Refusal>
    ensures { result ≡ check_from_records s.now }
{
    check_records(s)?;
    check_directories(s)
}

// Stages 1 to 9.
pub fn check(s: &[u8]) -> Result<(), Refusal>
    ensures { result ≡ check s.now }
{
    check_to_bodies(s)?;
    check_directories(s)
}

// The second half of the check, of the whole file: the first half again, with all bytes given, then stages 6 to 9. It answers as the
// check does.
pub fn check_rest(s: &[u8]) -> Result<(), Refusal>
    ensures value { result ≡ check_rest s.now }
    ensures whole { result ≡ check s.now }
{
    start::check_start(s, s.len())?;
    check_from_records(s)
}
