// The pieces of a page that a lay-down and the move of a score sheet both write, and neither owns: its front, its tile directory, and
// how long they are. All have a `requires`: the front was judged, and what is written fits.
//
// The references of all tiles are set to zero, then that of each tile given is written at its index. The time grows with the number
// of tiles plus the number of indexes; looking each tile up among the indexes would take their product.
ghost use Rattle.std.specs.Prelude.{◌≡◌, ◌+◌, ◌*◌, ◌≤◌, length, Ok};
ghost use Rattle.wire.specs.Bytes.{put};
ghost use Rattle.geometry.specs.Tiles.{tile_count};
ghost use Rattle.geometry.specs.Sizes.{plain_tile_length};
ghost use Rattle.check_header.specs.Stages.{check_front};
ghost use Rattle.check_header.specs.Ceilings.{most_tiles};
ghost use Rattle.written_records.specs.Pieces.{record_length};
ghost use Rattle.lay_down.specs.Page.{references, directory_record, laid_front};
ghost use Rattle.lay_down.specs.Answer.{length_verdict};
ghost use Rattle.lay_down.specs.Ready.{IndexesReady};

use crate::front;
use answer::Refusal;
use check_header::ceilings;
use geometry::{sizes, tiles};
use header::fields;
use tile_sizes;
use wire::writing;
use written_records::{directory, pieces};

const TILE_DIRECTORY: u8 = record::TILE_DIRECTORY as u8;

// The length of a tile record whose elements are all uncompressed.
pub(crate) fn tile_length(front: &[u8]) -> usize
    requires { check_front front.now ≡ Ok tt }
    ensures { result ≡ plain_tile_length front.now }
{
    tile_sizes::plain_tile_length(front)
}

// The length of the tile directory.
fn directory_length(front: &[u8]) -> usize
    requires { check_front front.now ≡ Ok tt }
    ensures { result ≡ record_length (24 + 4 * tile_count front.now) }
{
    let count = tiles::tile_count(front);
    sizes::least_length((32 + 4 * count) as u32) as usize
}

// Where the tile directory starts, behind the records of k tiles.
pub(crate) fn directory_start(front: &[u8], k: usize) -> usize
    requires { (check_front front.now ≡ Ok tt) × (k ≤ most_tiles) }
    ensures { result ≡ length front.now + k * plain_tile_length front.now }
{
    let n = tile_length(front);
    front.len() + k * n
}

// The file's length.
pub(crate) fn file_length(front: &[u8], k: usize) -> usize
    requires { (check_front front.now ≡ Ok tt) × (k ≤ most_tiles) }
    ensures { result ≡ length front.now + k * plain_tile_length front.now + record_length (24 + 4 * tile_count front.now) }
{
    directory_start(front, k) + directory_length(front)
}

// What is judged of the file's length: 4 if it passes its ceiling, then 13 exactly if the buffer is shorter.
pub(crate) fn length_verdict(front: &[u8], indexes: &[u32], room: usize) -> Result<(), Refusal>
    requires { (check_front front.now ≡ Ok tt) × (length indexes.now ≤ most_tiles) }
    ensures { result ≡ length_verdict front.now indexes.now room }
{
    let n = file_length(front, indexes.len());
    if ceilings::MOST_FILE_BYTES < n {
        return Err(Refusal::Ceiling);
    }
    if room < n {
        return Err(Refusal::Room);
    }
    Ok(())
}

// The front, with its fields set and its checksum made anew.
pub(crate) fn put_front(out: &mut [u8], front: &[u8], time: u64, directory: u64)
    requires { (check_front front.now ≡ Ok tt) × (length front.now ≤ length out.old) }
    ensures { out.new ≡ put out.old 0 (laid_front front.now time directory) }
{
    let flag = fields::checksum_enabled(front);
    let n = front.len() - 16;
    writing::put_bytes(out, 0, front);
    front::set_fields(out, time, directory);
    pieces::seal(out, 16, n, flag);
}

// The references of all tiles of the grid: zero, but for the tiles that are given, whose records are n bytes each.
fn put_references(out: &mut [u8], at: usize, n: usize, front: &[u8], indexes: &[u32])
    requires { IndexesReady front.now indexes.now × ((n ≡ plain_tile_length front.now) × (at + 4 * tile_count front.now ≤ length out.old)) }
    ensures { out.new ≡ put out.old at (references front.now indexes.now (tile_count front.now)) }
{
    let count = tiles::tile_count(front) as usize;
    writing::put_zeros(out, at, 4 * count);
    let mut start = front.len();
    for index in indexes {
        directory::put_reference(out, at, *index, start);
        start += n;
    }
}

// The tile directory.
pub(crate) fn put_directory(out: &mut [u8], at: usize, n: usize, front: &[u8], indexes: &[u32])
    requires { IndexesReady front.now indexes.now × ((n ≡ plain_tile_length front.now) × (at + record_length (24 + 4 * tile_count front.now) ≤ length out.old)) }
    ensures { out.new ≡ put out.old at (directory_record front.now indexes.now) }
{
    let flag = fields::checksum_enabled(front);
    let down = tiles::tiles_down(front);
    let across = tiles::tiles_across(front);
    let count = tiles::tile_count(front) as usize;
    let long = directory_length(front);
    pieces::put_head(out, at, long as u32, TILE_DIRECTORY);
    directory::put_form(out, at + 8, down, across);
    put_references(out, at + 32, n, front, indexes);
    pieces::close(out, at, at + 32 + 4 * count, long, flag);
}
