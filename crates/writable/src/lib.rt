// Whether a page is open for writing.
#![tactic(auto)]

ghost use Rattle.std.specs.Prelude.{◌≡◌, [], ◌∷◌, length};
ghost use Rattle.wire.specs.Tests.{◌≡?◌, passes};
ghost use Rattle.check_header.specs.Stages.{check_header};
ghost use Rattle.pieces.specs.Pieces.{pieces, nothing_to_join};
ghost use Rattle.writable.specs.Writable.{is_opened, records_right, directory_full, no_file_space, directories_open, open_for_writing};

use bodies::tile_directory;
use check_directory::{references, tile_rules};
use check_header::stages;
use check_lists::stage;
use geometry::tiles;
use header::fields;
use record::{Cursor, Step, chain};

// Stages 1 to 4 pass and stage 5 does not.
fn is_opened(s: &[u8]) -> bool
    ensures { result ≡ is_opened (check_header s.now (length s.now)) }
{
    if answer::verdict_number(stages::check_header(s, s.len())) != 5 {
        return false;
    }
    true
}

// Stages 6 to 8 pass.
fn records_right(s: &[u8]) -> bool
    ensures { result ≡ records_right s.now }
{
    if answer::verdict_number(page_check::check_records(s)) != 0 {
        return false;
    }
    true
}

// The tile directory lists every tile of the grid.
pub fn directory_full(s: &[u8]) -> bool
    ensures { result ≡ directory_full s.now }
{
    let at = tile_directory::tile_directory_at(s);
    if tile_directory::listed_rows(s, at) != tiles::tiles_down(s) {
        return false;
    }
    if tile_directory::listed_columns(s, at) != tiles::tiles_across(s) {
        return false;
    }
    true
}

// There is no file-space directory.
fn no_file_space(s: &[u8]) -> bool
    ensures { result ≡ no_file_space s.now }
{
    if fields::file_space_reference(s) != 0 {
        return false;
    }
    references::no_other(s, record::FILE_SPACE_DIRECTORY, 0)
}

// The directories are as an open page has them.
fn directories_open(s: &[u8]) -> bool
    ensures { result ≡ directories_open s.now }
{
    if tile_rules::tile_directory_right(s) {
        if directory_full(s) {
            if stage::metadata_directory_right(s) {
                return no_file_space(s);
            }
        }
    }
    false
}

// Records of these types are both free.
fn both_free(last: u32, kind: u32) -> bool
    ensures { result ≡ passes ((last ≡? 0) ∷ (kind ≡? 0) ∷ []) }
{
    if last != record::FREE {
        return false;
    }
    if kind != record::FREE {
        return false;
    }
    true
}

// No two free records adjoin. The walk keeps the type of the record before; the header is none of them.
fn nothing_to_join(s: &[u8]) -> bool
    ensures { result ≡ nothing_to_join (pieces s.now) }
{
    let mut c = Cursor {
        at: chain::header_end(s),
    };
    let mut last = record::HEADER;
    loop {
        let Step::Record {
            kind,
            start: _,
            length: _,
            next,
        } = c.step(s)
        else {
            return true;
        };
        if both_free(last, kind) {
            return false;
        }
        last = kind;
        c = next;
    }
}

// Whether a page is open for writing. Each stage is asked once.
pub fn is_open(s: &[u8]) -> bool
    ensures { result ≡ open_for_writing s.now }
{
    if is_opened(s) {
        if records_right(s) {
            if directories_open(s) {
                return nothing_to_join(s);
            }
        }
    }
    false
}
