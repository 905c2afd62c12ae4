// Directories put behind a page: a tile directory of every tile of the grid, and the list of free records. What they are made from is
// read from the page itself, the first n bytes of the buffer, while they are put at n and behind.
ghost use Rattle.std.specs.Prelude.{◌≡◌, ◌++◌, ◌+◌, ◌*◌, ◌%◌, ◌-◌, ◌≤◌, length};
ghost use Rattle.wire.specs.Bytes.{bytes_of};
ghost use Rattle.record.specs.Types.{free_type, file_space_directory_type, tile_directory_type};
ghost use Rattle.record.specs.Chain.{records_of};
ghost use Rattle.written_records.specs.Pieces.{record_of};
ghost use Rattle.written_records.specs.Directory.{directory_form, references_of};
ghost use Rattle.stores.specs.Stores.{store_count, stopped};
ghost use Rattle.stores.specs.Writes.{one_write, whole_write};
ghost use Rattle.correct.specs.Front.{page_in};
ghost use Rattle.correct.specs.Opening.{compact_of};
ghost use Rattle.correct.specs.Closing.{free_entry_bytes, free_list};

use crate::records;
use bodies::tile_directory;
use record::{Cursor, Step, chain};
use stores;
use written_records::directory;

const TILE_DIRECTORY: u8 = record::TILE_DIRECTORY as u8;

const FILE_SPACE_DIRECTORY: u8 = record::FILE_SPACE_DIRECTORY as u8;

// What stands before the references of a tile directory.
fn put_form_cut(out: &mut [u8], at: usize, down: u32, across: u32, k: usize) -> usize
    ensures left { result ≡ k - store_count (one_write at (directory_form down across)) }
    ensures holds { out.new ≡ stopped k (one_write at (directory_form down across)) out.old }
{
    let mut form = [0u8; 24];
    directory::put_form(&mut form, 0, down, across);
    stores::put_cut(out, at, &form, k)
}

// The compact reference to what the directory of a page gives for a tile, as four bytes hold it.
fn compact_of(s: &[u8], i: u32) -> u32
    ensures { result ≡ compact_of s.now i % 4294967296 }
{
    (tile_directory::tile_reference(s, i) / 8 % 4294967296) as u32
}

// The compact references of the first `count` tiles, at `at` behind the page.
fn put_references_cut(out: &mut [u8], n: usize, at: usize, count: usize, k: usize) -> usize
    requires { (n ≤ at) × ((at + 4 * count ≤ length out.old) × (count ≤ 4294967295)) }
    ensures left { result ≡ k - store_count (one_write at (references_of (compact_of (page_in out.old n)) count)) }
    ensures holds { out.new ≡ stopped k (one_write at (references_of (compact_of (page_in out.old n)) count)) out.old }
{
    let mut left = k;
    for i in 0..count {
        let v = compact_of(wire::part_of(out, 0, n), i as u32);
        left = stores::put_u32_cut(out, at + 4 * i, v, left);
    }
    left
}

// A tile directory of the first `count` tiles, directly behind the page.
pub fn put_directory_cut(
    out: &mut [u8],
    n: usize,
    flag: u32,
    down: u32,
    across: u32,
    count: u32,
    k: usize,
) -> usize
    ensures left { result ≡ k - store_count (whole_write (length out.old) n (record_of flag tile_directory_type (directory_form down across ++ references_of (compact_of (page_in out.old n)) count))) }
    ensures holds { out.new ≡ stopped k (whole_write (length out.old) n (record_of flag tile_directory_type (directory_form down across ++ references_of (compact_of (page_in out.old n)) count))) out.old }
{
    let long = records::record_length(24 + 4 * count as usize);
    let room = out.len();
    if room < long {
        return k;
    }
    if room - long < n {
        return k;
    }
    let a = records::put_head_cut(out, n, long, TILE_DIRECTORY, k);
    let b = put_form_cut(out, n + 8, down, across, a);
    let c = put_references_cut(out, n, n + 32, count as usize, b);
    let d = stores::put_zeros_cut(
        out,
        n + 32 + 4 * count as usize,
        long - 4 - (32 + 4 * count as usize),
        c,
    );
    stores::seal_cut(out, n, long, flag, d)
}

// The entry of a free record: its start and its length.
fn put_entry_cut(out: &mut [u8], at: usize, start: usize, long: usize, k: usize) -> usize
    requires { at + 12 ≤ length out.old }
    ensures left { result ≡ k - store_count (one_write at (bytes_of 8 start ++ bytes_of 4 long)) }
    ensures holds { out.new ≡ stopped k (one_write at (bytes_of 8 start ++ bytes_of 4 long)) out.old }
{
    let a = stores::put_u64_cut(out, at, start as u64, k);
    stores::put_u32_cut(out, at + 8, (long % 4294967296) as u32, a)
}

// The entries of all free records of the page, by start, behind it.
fn put_entries_cut(out: &mut [u8], n: usize, k: usize) -> usize
    requires { n + 12 + length (free_entry_bytes (page_in out.old n) (records_of (page_in out.old n) free_type)) ≤ length out.old }
    ensures left { result ≡ k - store_count (one_write (n + 12) (free_entry_bytes (page_in out.old n) (records_of (page_in out.old n) free_type))) }
    ensures holds { out.new ≡ stopped k (one_write (n + 12) (free_entry_bytes (page_in out.old n) (records_of (page_in out.old n) free_type))) out.old }
{
    let mut left = k;
    let mut at = n + 12;
    let mut c = Cursor {
        at: chain::header_end(wire::part_of(out, 0, n)),
    };
    loop {
        let Step::Record {
            kind,
            start,
            length,
            next,
        } = c.step(wire::part_of(out, 0, n))
        else {
            return left;
        };
        if kind == record::FREE {
            left = put_entry_cut(out, at, start, length, left);
            at += 12;
        }
        c = next;
    }
}

// The list of free records, of which there are so many, directly behind the page.
fn put_counted_cut(out: &mut [u8], n: usize, flag: u32, count: usize, k: usize) -> usize
    requires { (count ≤ 268435456) × (count ≡ length (records_of (page_in out.old n) free_type)) }
    ensures left { result ≡ k - store_count (whole_write (length out.old) n (record_of flag file_space_directory_type (free_list (page_in out.old n)))) }
    ensures holds { out.new ≡ stopped k (whole_write (length out.old) n (record_of flag file_space_directory_type (free_list (page_in out.old n)))) out.old }
{
    let long = records::record_length(4 + 12 * count);
    let room = out.len();
    if room < long {
        return k;
    }
    if room - long < n {
        return k;
    }
    let a = records::put_head_cut(out, n, long, FILE_SPACE_DIRECTORY, k);
    let b = stores::put_u32_cut(out, n + 8, count as u32, a);
    let c = put_entries_cut(out, n, b);
    let d = stores::put_zeros_cut(out, n + 12 + 12 * count, long - 4 - (12 + 12 * count), c);
    stores::seal_cut(out, n, long, flag, d)
}

// The same, counted.
pub fn put_list_cut(out: &mut [u8], n: u32, flag: u32, k: usize) -> usize
    ensures left { result ≡ k - store_count (whole_write (length out.old) n (record_of flag file_space_directory_type (free_list (page_in out.old n)))) }
    ensures holds { out.new ≡ stopped k (whole_write (length out.old) n (record_of flag file_space_directory_type (free_list (page_in out.old n)))) out.old }
{
    let count = chain::record_count(wire::part_of(out, 0, n as usize), record::FREE);
    put_counted_cut(out, n as usize, flag, count, k)
}
