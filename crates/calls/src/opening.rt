// Opening: the opened time, a full tile directory and the reference to it where the page's own is not full, what is freed and joined,
// and the header's checksum last.
ghost use Rattle.std.specs.Prelude.{◌≡◌, true, [], ◌++◌, ◌-◌, length};
ghost use Rattle.wire.specs.Pick.{pick};
ghost use Rattle.record.specs.Types.{tile_directory_type};
ghost use Rattle.written_records.specs.Pieces.{record_of};
ghost use Rattle.written_records.specs.Directory.{directory_form, references_of};
ghost use Rattle.stores.specs.Stores.{store_count, stopped};
ghost use Rattle.stores.specs.Writes.{whole_write};
ghost use Rattle.correct.specs.Front.{page_in, workable};
ghost use Rattle.correct.specs.Opening.{compact_of};
ghost use Rattle.correct.specs.Writes.{open_body, open_writes};
ghost use Rattle.calls.specs.Layouts.{layout_of, grid_of};

use crate::{Grid, Layout, reading};
use correct::{directories, front};
use edit_walks::{Wanted, freeing};
use geometry::tiles;
use stores;
use writable;
use written_records::pieces as parts;

// The tiles of the grid, and whether the directory lists each.
fn grid_of(s: &[u8]) -> Grid
    requires { workable s.now ≡ true }
    ensures { result ≡ grid_of s.now }
{
    let full = writable::directory_full(s);
    let down = tiles::tiles_down(s);
    let across = tiles::tiles_across(s);
    let count = tiles::tile_count(s) as u32;
    Grid {
        full,
        down,
        across,
        count,
    }
}

// A full directory behind the page, where its own is not.
fn directory_cut(out: &mut [u8], n: usize, flag: u32, g: Grid, k: usize) -> usize
    ensures left { result ≡ k - store_count (pick g.full [] (whole_write (length out.old) n (record_of flag tile_directory_type (directory_form g.down g.across ++ references_of (compact_of (page_in out.old n)) g.count)))) }
    ensures holds { out.new ≡ stopped k (pick g.full [] (whole_write (length out.old) n (record_of flag tile_directory_type (directory_form g.down g.across ++ references_of (compact_of (page_in out.old n)) g.count)))) out.old }
{
    if g.full {
        return k;
    }
    directories::put_directory_cut(out, n, flag, g.down, g.across, g.count, k)
}

// All but the header's checksum.
fn body_cut(out: &mut [u8], n: usize, time: u64, p: Layout, g: Grid, k: usize) -> usize
    requires { (workable (page_in out.old n) ≡ true) × ((p ≡ layout_of (page_in out.old n)) × (g ≡ grid_of (page_in out.old n))) }
    ensures left { result ≡ k - store_count (open_body (length out.old) (page_in out.old n) time) }
    ensures holds { out.new ≡ stopped k (open_body (length out.old) (page_in out.old n) time) out.old }
{
    let a = front::put_opened_cut(out, time, k);
    let b = directory_cut(out, n, p.flag, g, a);
    let c = front::refer_to_cut(out, 80, !g.full, n as u32, b);
    freeing::join_cut(out, n, p.flag, p.end, Wanted::Unwanted(g.full), c)
}

pub(crate) fn opening_cut(out: &mut [u8], n: usize, time: u64, k: usize) -> usize
    requires { workable (page_in out.old n) ≡ true }
    ensures left { result ≡ k - store_count (open_writes out.old (page_in out.old n) time) }
    ensures holds { out.new ≡ stopped k (open_writes out.old (page_in out.old n) time) out.old }
{
    let s = wire::part_of(out, 0, n);
    let p = reading::layout_of(s);
    let g = grid_of(s);
    let a = body_cut(out, n, time, p, g, k);
    stores::seal_cut(out, 16, parts::difference(p.end, 16), p.flag, a)
}
