// Stage 9: the file-space and metadata directories, whole, and the stage.
ghost use Rattle.std.specs.Prelude.{◌≡◌};
ghost use Rattle.check_lists.specs.FileSpace.{file_space_right};
ghost use Rattle.check_lists.specs.Metadata.{metadata_directory_right};
ghost use Rattle.check_lists.specs.Stage.{directories_right};

use crate::{ListKind, lists};
use check_directory::{references, tile_rules};
use header::fields;
use metadata_keys::keys;

// The file-space directory is right.
fn file_space_right(s: &[u8]) -> bool
    ensures { result ≡ file_space_right s.now }
{
    let reference = fields::file_space_reference(s);
    if !references::refers_or_zero(s, record::FILE_SPACE_DIRECTORY, reference) {
        return false;
    }
    if !references::no_other(s, record::FILE_SPACE_DIRECTORY, reference) {
        return false;
    }
    lists::list_right(s, ListKind::FreeSpace)
}

// The metadata directory is right.
pub fn metadata_directory_right(s: &[u8]) -> bool
    ensures { result ≡ metadata_directory_right s.now }
{
    let reference = fields::metadata_reference(s);
    if !references::refers_or_zero(s, record::METADATA_DIRECTORY, reference) {
        return false;
    }
    if !references::no_other(s, record::METADATA_DIRECTORY, reference) {
        return false;
    }
    if lists::list_right(s, ListKind::Metadata) {
        return keys::keys_distinct(s);
    }
    false
}

// All three are.
pub fn directories_right(s: &[u8]) -> bool
    ensures { result ≡ directories_right s.now }
{
    if tile_rules::tile_directory_right(s) {
        if metadata_directory_right(s) {
            return file_space_right(s);
        }
    }
    false
}
