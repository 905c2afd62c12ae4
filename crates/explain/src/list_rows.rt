// Stage 9: the metadata directory and the file-space directory.
#![tactic(auto, using(reasons::proofs::ReasonLaws::chain), unfolding(crate::specs::DirectoryRows::then_rows, crate::specs::DirectoryRows::list_rows, crate::specs::DirectoryRows::key_rows, crate::specs::DirectoryRows::metadata_fitting_rows, crate::specs::DirectoryRows::metadata_referred_rows, crate::specs::DirectoryRows::metadata_frame_rows, crate::specs::DirectoryRows::metadata_directory_rows, crate::specs::DirectoryRows::free_fitting_rows, crate::specs::DirectoryRows::file_space_referred_rows, crate::specs::DirectoryRows::file_space_frame_rows, crate::specs::DirectoryRows::file_space_rows))]

ghost use Rattle.std.specs.Prelude.{◌≡◌, true, ◌+◌, ◌≤◌, ◌<◌, length};
ghost use Rattle.record.specs.Chain.{records_of};
ghost use Rattle.record.specs.Types.{free_type, metadata_type, metadata_directory_type, file_space_directory_type};
ghost use Rattle.header.specs.Fields.{metadata_reference, file_space_reference};
ghost use Rattle.bodies.specs.ListDirectories.{file_space_at, free_count, free_entry_at, metadata_at, metadata_count, metadata_entry_at};
ghost use Rattle.check_directory.specs.References.{refers_or_zero};
ghost use Rattle.check_lists.specs.FileSpace.{free_entry_is, free_fits};
ghost use Rattle.check_lists.specs.Metadata.{metadata_entry_is, metadata_fits};
ghost use Rattle.reasons.specs.Rows.{judged, first_failing, equal};
ghost use Rattle.explain.specs.DirectoryRows.{farthest, then_rows, rows_over, other_rows, list_rows, key_rows, metadata_fitting_rows, metadata_fit_rows, metadata_referred_rows, metadata_frame_rows, metadata_directory_rows, free_fitting_rows, free_fit_rows, file_space_referred_rows, file_space_frame_rows, file_space_rows};

use crate::{over, padding};
use bodies::list_directories;
use check_directory::references;
use header::fields;
use metadata_keys::keys;
use reasons::{Fault, rows};
use record::{chain, frame};

// The header refers to a metadata directory, or to none.
fn metadata_referred(s: &[u8]) -> Result<(), Fault>
    ensures { result ≡ first_failing (metadata_referred_rows s.now) }
{
    let reference = fields::metadata_reference(s);
    let kept = references::refers_or_zero(s, record::METADATA_DIRECTORY, reference);
    rows::holds(60, 0, 64, reference, 0, kept)
}

// There is no other.
fn metadata_others(s: &[u8]) -> Result<(), Fault>
    ensures { result ≡ first_failing (rows_over (other_rows 61 (metadata_reference s.now)) 0 (records_of s.now metadata_directory_type)) }
{
    let reference = fields::metadata_reference(s);
    over::others(s, record::METADATA_DIRECTORY, 61, reference)
}

// Where its last entry ends; an entry that starts past the record's checksum is not read.
fn metadata_list_end(s: &[u8]) -> usize
    requires { metadata_at s.now < length s.now }
    ensures is { result ≡ metadata_entry_at s.now (metadata_count s.now) }
    ensures near { result ≤ farthest }
{
    let at = list_directories::metadata_at(s);
    let limit = frame::record_limit(s, at);
    let mut left = list_directories::metadata_count(s);
    let mut p = at + 12;
    while 0 < left {
        if limit < p {
            return p;
        }
        p += list_directories::metadata_entry_size(s, p);
        left -= 1;
    }
    p
}

// Its count, and that its entries fit.
fn metadata_fitting(s: &[u8]) -> Result<(), Fault>
    requires { metadata_at s.now < length s.now }
    ensures { result ≡ first_failing (metadata_fitting_rows s.now) }
{
    let reference = fields::metadata_reference(s);
    let count = list_directories::metadata_count(s) as u64;
    rows::at_most(62, 0, reference, count, wire::LARGEST_INTEGER as u64)?;
    let at = list_directories::metadata_at(s);
    let end = metadata_list_end(s) as u64;
    padding::padding(s, 63, at, end)
}

// The same where there may be none.
fn metadata_fit(s: &[u8]) -> Result<(), Fault>
    requires { refers_or_zero s.now metadata_directory_type (metadata_reference s.now) ≡ true }
    ensures { result ≡ first_failing (metadata_fit_rows s.now) }
{
    if fields::metadata_reference(s) == 0 {
        return Ok(());
    }
    metadata_fitting(s)
}

// It has as many entries as there are metadata records.
fn metadata_counted(s: &[u8]) -> Result<(), Fault>
    ensures { result ≡ judged (equal 65 0 (metadata_reference s.now) (metadata_count s.now) (length (records_of s.now metadata_type))) }
{
    let reference = fields::metadata_reference(s);
    let count = list_directories::metadata_count(s) as u64;
    let records = chain::record_count(s, record::METADATA) as u64;
    rows::equal(65, 0, reference, count, records)
}

// No two metadata records have the same pair of name and ID.
fn key_row(s: &[u8]) -> Result<(), Fault>
    ensures { result ≡ first_failing (key_rows s.now) }
{
    let reference = fields::metadata_reference(s);
    let kept = keys::keys_distinct(s);
    rows::holds(67, 0, reference, 0, 0, kept)
}

// The header refers to a file-space directory, or to none.
fn file_space_referred(s: &[u8]) -> Result<(), Fault>
    ensures { result ≡ first_failing (file_space_referred_rows s.now) }
{
    let reference = fields::file_space_reference(s);
    let kept = references::refers_or_zero(s, record::FILE_SPACE_DIRECTORY, reference);
    rows::holds(68, 0, 56, reference, 0, kept)
}

// There is no other.
fn file_space_others(s: &[u8]) -> Result<(), Fault>
    ensures { result ≡ first_failing (rows_over (other_rows 69 (file_space_reference s.now)) 0 (records_of s.now file_space_directory_type)) }
{
    let reference = fields::file_space_reference(s);
    over::others(s, record::FILE_SPACE_DIRECTORY, 69, reference)
}

// Where its last entry ends.
fn free_list_end(s: &[u8]) -> u64
    requires { file_space_at s.now < length s.now }
    ensures is { result ≡ free_entry_at s.now (free_count s.now) }
    ensures near { result ≤ farthest }
{
    let at = list_directories::file_space_at(s) as u64;
    let count = list_directories::free_count(s) as u64;
    at + 12 + 12 * count
}

// Its count, and that its entries fit.
fn free_fitting(s: &[u8]) -> Result<(), Fault>
    requires { file_space_at s.now < length s.now }
    ensures { result ≡ first_failing (free_fitting_rows s.now) }
{
    let reference = fields::file_space_reference(s);
    let count = list_directories::free_count(s) as u64;
    rows::at_least(70, 0, reference, count, 1)?;
    rows::at_most(71, 0, reference, count, wire::LARGEST_INTEGER as u64)?;
    let at = list_directories::file_space_at(s);
    let end = free_list_end(s);
    padding::padding(s, 72, at, end)
}

// The same where there may be none.
fn free_fit(s: &[u8]) -> Result<(), Fault>
    requires { refers_or_zero s.now file_space_directory_type (file_space_reference s.now) ≡ true }
    ensures { result ≡ first_failing (free_fit_rows s.now) }
{
    if fields::file_space_reference(s) == 0 {
        return Ok(());
    }
    free_fitting(s)
}

// It has as many entries as there are free-space records.
fn free_counted(s: &[u8]) -> Result<(), Fault>
    ensures { result ≡ judged (equal 74 0 (file_space_reference s.now) (free_count s.now) (length (records_of s.now free_type))) }
{
    let reference = fields::file_space_reference(s);
    let count = list_directories::free_count(s) as u64;
    let records = chain::record_count(s, record::FREE) as u64;
    rows::equal(74, 0, reference, count, records)
}

// Rules 61 to 64.
fn metadata_frame(s: &[u8]) -> Result<(), Fault>
    requires { refers_or_zero s.now metadata_directory_type (metadata_reference s.now) ≡ true }
    ensures { result ≡ first_failing (metadata_frame_rows s.now) }
{
    metadata_others(s)?;
    metadata_fit(s)
}

// Rules 65 and 66.
fn metadata_list(s: &[u8]) -> Result<(), Fault>
    requires { metadata_fits s.now ≡ true }
    ensures { result ≡ first_failing (list_rows s.now 65 (metadata_reference s.now) metadata_type (metadata_count s.now) (metadata_entry_is s.now)) }
{
    metadata_counted(s)?;
    over::metadata_once(s)
}

// Rules 65 to 67.
fn metadata_last(s: &[u8]) -> Result<(), Fault>
    requires { metadata_fits s.now ≡ true }
    ensures { result ≡ first_failing (then_rows (list_rows s.now 65 (metadata_reference s.now) metadata_type (metadata_count s.now) (metadata_entry_is s.now)) (key_rows s.now)) }
{
    metadata_list(s)?;
    key_row(s)
}

// Rules 61 to 67.
fn metadata_behind(s: &[u8]) -> Result<(), Fault>
    requires { refers_or_zero s.now metadata_directory_type (metadata_reference s.now) ≡ true }
    ensures { result ≡ first_failing (then_rows (metadata_frame_rows s.now) (then_rows (list_rows s.now 65 (metadata_reference s.now) metadata_type (metadata_count s.now) (metadata_entry_is s.now)) (key_rows s.now))) }
{
    metadata_frame(s)?;
    metadata_last(s)
}

// Rules 60 to 67: the metadata directory.
pub fn metadata_directory_row(s: &[u8]) -> Result<(), Fault>
    ensures { result ≡ first_failing (metadata_directory_rows s.now) }
{
    metadata_referred(s)?;
    metadata_behind(s)
}

// Rules 69 to 73.
fn file_space_frame(s: &[u8]) -> Result<(), Fault>
    requires { refers_or_zero s.now file_space_directory_type (file_space_reference s.now) ≡ true }
    ensures { result ≡ first_failing (file_space_frame_rows s.now) }
{
    file_space_others(s)?;
    free_fit(s)
}

// Rules 74 and 75.
fn free_list(s: &[u8]) -> Result<(), Fault>
    requires { free_fits s.now ≡ true }
    ensures { result ≡ first_failing (list_rows s.now 74 (file_space_reference s.now) free_type (free_count s.now) (free_entry_is s.now)) }
{
    free_counted(s)?;
    over::free_once(s)
}

// Rules 69 to 75.
fn file_space_behind(s: &[u8]) -> Result<(), Fault>
    requires { refers_or_zero s.now file_space_directory_type (file_space_reference s.now) ≡ true }
    ensures { result ≡ first_failing (then_rows (file_space_frame_rows s.now) (list_rows s.now 74 (file_space_reference s.now) free_type (free_count s.now) (free_entry_is s.now))) }
{
    file_space_frame(s)?;
    free_list(s)
}

// Rules 68 to 75: the file-space directory.
pub fn file_space_row(s: &[u8]) -> Result<(), Fault>
    ensures { result ≡ first_failing (file_space_rows s.now) }
{
    file_space_referred(s)?;
    file_space_behind(s)
}
