// The listing of a file (document 01). It stands above the check and the definitions of cells; neither the reads nor the lay-down
// knows it.
//
// `list` itself says `too long`, before it looks at any byte, so that one text is promised to every caller. Else it makes the check
// once and the text twice: first into a buffer of no bytes, which gives the length, then into the caller's, if it fits. The writers
// of the lines promise where they end, fit or not, and what they leave only where they fit (`Puts`); none of them is public.
//
// Tile records are counted over the chain. For the lines of the indexes the tile directory is asked, in index order: on an accepted
// file a reference is not zero just where a tile record carries the index. So no line takes a pass over the chain, and nothing has to
// be sorted.
#![tactic(auto)]

pub mod numbers;

ghost use Rattle.std.specs.Prelude.{◌≡◌, [], ◌++◌, ◌+◌, ◌≤◌, ◌<◌, ◌*◌, length, Ok};
ghost use Rattle.wire.specs.Pick.{pick};
ghost use Rattle.wire.specs.Bytes.{put};
ghost use Rattle.header.specs.Fields.{grid_rows, grid_columns, tile_rows, tile_columns, element_count};
ghost use Rattle.geometry.specs.Tiles.{tile_count};
ghost use Rattle.wire.specs.Lists.{some};
ghost use Rattle.record.specs.Chain.{records};
ghost use Rattle.page_check.specs.Stages.{check};
ghost use Rattle.tile_routes.specs.Ways.{carries};
ghost use Rattle.listing.specs.Text.{decimal, space, newline, grid_word, tile_word, elements_word, written_word, of_word, line};
ghost use Rattle.listing.specs.Listing.{written, index_lines, listed, listed_by, listing};
ghost use Rattle.listing.specs.Puts.{Puts, most_line, most_text};

use answer::Refusal;
use bodies::tile_directory;
use geometry::tiles;
use header::fields;
use record::chain;
use wire::writing;

// The most bytes of a file that is listed.
pub const MOST_LISTED: usize = 65536;

// A number that ends a line.
fn put_last(out: &mut [u8], at: usize, n: u64) -> usize
    requires { at ≤ most_text }
    ensures text { Puts out.old at (decimal n ++ newline) result out.new }
    ensures few { result ≤ at + 21 }
{
    let p = at + numbers::put_decimal(out, at, n);
    writing::put_byte(out, p, 10);
    p + 1
}

// A line of a word and two numbers with a text between them.
fn put_line(out: &mut [u8], at: usize, word: &[u8], a: u64, between: &[u8], b: u64) -> usize
    requires { (at ≤ 4 * most_line) × ((length word.now ≤ 9) × (length between.now ≤ 4)) }
    ensures text { Puts out.old at (line word.now a between.now b) result out.new }
    ensures few { result ≤ at + most_line }
{
    writing::put_bytes(out, at, word);
    let p = at + word.len();
    let q = p + numbers::put_decimal(out, p, a);
    writing::put_bytes(out, q, between);
    put_last(out, q + between.len(), b)
}

// The lines of the sides.
fn put_sides(out: &mut [u8], s: &[u8]) -> usize
    ensures text { Puts out.old 0 (line grid_word (grid_rows s.now) space (grid_columns s.now) ++ line tile_word (tile_rows s.now) space (tile_columns s.now)) result out.new }
    ensures few { result ≤ 2 * most_line }
{
    let rows = fields::grid_rows(s) as u64;
    let columns = fields::grid_columns(s) as u64;
    let tile_rows = fields::tile_rows(s) as u64;
    let tile_columns = fields::tile_columns(s) as u64;
    let at = put_line(out, 0, b"grid ", rows, b" ", columns);
    put_line(out, at, b"tile ", tile_rows, b" ", tile_columns)
}

// The line of the elements.
fn put_elements(out: &mut [u8], at: usize, s: &[u8]) -> usize
    requires { at ≤ 2 * most_line }
    ensures text { Puts out.old at (elements_word ++ decimal (element_count s.now) ++ newline) result out.new }
    ensures few { result ≤ at + most_line }
{
    let n = fields::element_count(s) as u64;
    writing::put_bytes(out, at, b"elements ");
    put_last(out, at + 9, n)
}

// The line of the tile records in the chain, and of the tiles in the grid.
fn put_written(out: &mut [u8], at: usize, s: &[u8]) -> usize
    requires { at ≤ 3 * most_line }
    ensures text { Puts out.old at (line written_word (written s.now) of_word (tile_count s.now)) result out.new }
    ensures few { result ≤ at + most_line }
{
    let count = chain::record_count(s, record::TILE) as u64;
    let all = tiles::tile_count(s);
    put_line(out, at, b"written ", count, b" of ", all)
}

// The line of an index, where a tile record carries it.
fn put_index(out: &mut [u8], at: usize, s: &[u8], i: u32) -> usize
    requires { (check s.now ≡ Ok tt) × ((i < tile_count s.now) × (at ≤ most_text)) }
    ensures text { Puts out.old at (pick (some (carries s.now i) (records s.now)) (decimal i ++ newline) []) result out.new }
    ensures few { result ≤ at + 21 }
{
    if tile_directory::tile_reference(s, i) == 0 {
        return at;
    }
    put_last(out, at, i as u64)
}

// The lines of all indexes, in their order.
fn put_indexes(out: &mut [u8], at: usize, s: &[u8]) -> usize
    requires { (check s.now ≡ Ok tt) × (at ≤ 4 * most_line) }
    ensures { Puts out.old at (index_lines s.now (tile_count s.now)) result out.new }
{
    let n = tiles::tile_count(s) as u32;
    let mut p = at;
    let mut i = 0;
    while i < n {
        p = put_index(out, p, s, i);
        i += 1;
    }
    p
}

// The lines of an accepted file.
fn put_listed(out: &mut [u8], s: &[u8]) -> usize
    requires { check s.now ≡ Ok tt }
    ensures { Puts out.old 0 (listed s.now) result out.new }
{
    let sides = put_sides(out, s);
    let elements = put_elements(out, sides, s);
    let at = put_written(out, elements, s);
    put_indexes(out, at, s)
}

// What a check's answer gives.
fn put_verdict(out: &mut [u8], s: &[u8], v: Result<(), Refusal>) -> usize
    requires { v ≡ check s.now }
    ensures { Puts out.old 0 (listed_by (check s.now) s.now) result out.new }
{
    match v {
        Err(r) => {
            let number = answer::refusal_number(r) as u64;
            let place = answer::refusal_place(r) as u64;
            put_line(out, 0, b"refused ", number, b" at ", place)
        }
        Ok(()) => put_listed(out, s),
    }
}

// Lists a file: the text's length, and the text from the buffer's start on. What does not fit whole is not written. A first pass, into
// no bytes at all, gives the length.
pub fn list(file: &[u8], text: &mut [u8]) -> usize
    ensures long { result ≡ length (listing file.now) }
    ensures holds { text.new ≡ put text.old 0 (listing file.now) }
{
    if MOST_LISTED < file.len() {
        writing::put_bytes(text, 0, b"too long\n");
        return 9;
    }
    let verdict = page_check::check(file);
    let mut none = [0u8; 0];
    let n = put_verdict(&mut none, file, verdict);
    if n <= text.len() {
        put_verdict(text, file, verdict);
    }
    n
}
