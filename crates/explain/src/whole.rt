// The whole check: as it answers, with the first rule that is broken.
#![tactic(auto, using(crate::proofs::JoinLaws::parts), unfolding(crate::specs::DirectoryRows::then_rows, crate::specs::DirectoryRows::directory_rows, crate::specs::Whole::last_stages, crate::specs::Whole::body_stages, crate::specs::Whole::checksum_stages, crate::specs::Whole::chain_stages, crate::specs::Whole::check_stages, crate::specs::Whole::explained_of))]

ghost use Rattle.std.specs.Prelude.{◌≡◌, ◌≤◌};
ghost use Rattle.geometry.specs.Tiles.{tile_count};
ghost use Rattle.reasons.specs.Rows.{first_failing};
ghost use Rattle.reasons.specs.Stages.{explained};
ghost use Rattle.explain.specs.DirectoryRows.{then_rows, metadata_directory_rows, file_space_rows, directory_rows};
ghost use Rattle.explain.specs.Whole.{last_stages, body_stages, checksum_stages, chain_stages, explained_of};

use crate::{list_rows, tile_directory_rows};
use answer::Refusal;
use check_lists::stage;
use reasons::{Explanation, Fault, head, rows};
use record::chain;
use record_reasons::{chain_rows, records};

// The metadata directory, then the file-space directory.
fn list_directories(s: &[u8]) -> Result<(), Fault>
    ensures { result ≡ first_failing (then_rows (metadata_directory_rows s.now) (file_space_rows s.now)) }
{
    list_rows::metadata_directory_row(s)?;
    list_rows::file_space_row(s)
}

// All three, rule by rule.
fn each_directory(s: &[u8]) -> Result<(), Fault>
    requires { tile_count s.now ≤ 65536 }
    ensures { result ≡ first_failing (directory_rows s.now) }
{
    tile_directory_rows::tile_directory_row(s)?;
    list_directories(s)
}

// Rules are asked one by one only of directories that the check refuses.
fn directory_row(s: &[u8]) -> Result<(), Fault>
    requires { tile_count s.now ≤ 65536 }
    ensures { result ≡ first_failing (directory_rows s.now) }
{
    if stage::directories_right(s) {
        return Ok(());
    }
    each_directory(s)
}

// Stage 9.
fn from_directories(s: &[u8]) -> Result<(), Explanation>
    requires { tile_count s.now ≤ 65536 }
    ensures { result ≡ explained (last_stages s.now) }
{
    rows::refused_by(Refusal::Directory, directory_row(s))
}

// Stages 8 and 9.
fn from_bodies(s: &[u8]) -> Result<(), Explanation>
    requires { tile_count s.now ≤ 65536 }
    ensures { result ≡ explained (body_stages s.now) }
{
    records::body_rows(s)?;
    from_directories(s)
}

// Stages 7 to 9.
fn from_checksums(s: &[u8]) -> Result<(), Explanation>
    requires { tile_count s.now ≤ 65536 }
    ensures { result ≡ explained (checksum_stages s.now) }
{
    records::all_checksums(s)?;
    from_bodies(s)
}

// Stages 6 to 9.
fn from_chain(s: &[u8]) -> Result<(), Explanation>
    requires { tile_count s.now ≤ 65536 }
    ensures { result ≡ explained (chain_stages s.now) }
{
    let end = chain::records_end(s);
    rows::refused_by(Refusal::Chain(end), chain_rows::chain_end(s))?;
    from_checksums(s)
}

// Stages 1 to 9.
pub fn explain(s: &[u8]) -> Result<(), Explanation>
    ensures { result ≡ explained_of s.now }
{
    head::explain_head(s)?;
    from_chain(s)
}
