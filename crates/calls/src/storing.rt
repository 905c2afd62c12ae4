// Storing: the cell bytes over those of a plain record, or the old record freed, the new one, what is left over of the free record that
// it takes, and the reference to it.
ghost use Rattle.std.specs.Prelude.{◌≡◌, true, ◌+◌, ◌-◌, ◌≤◌, ◌<◌, length};
ghost use Rattle.record.specs.Record.{length_at, content_at};
ghost use Rattle.header.specs.Fields.{checksum_enabled};
ghost use Rattle.header.specs.Element.{entries_read};
ghost use Rattle.geometry.specs.Sizes.{element_bytes, plain_tile_length};
ghost use Rattle.stores.specs.Stores.{store_count, stopped};
ghost use Rattle.correct.specs.Front.{page_in, workable};
ghost use Rattle.correct.specs.Storing.{stored_at, stored_length};
ghost use Rattle.correct.specs.RecordWrites.{over_writes};
ghost use Rattle.correct.specs.Writes.{new_writes, then_refer, store_writes};
ghost use Rattle.edit_walks.specs.Walks.{spot_of};
ghost use Rattle.calls.specs.Layouts.{plan_of, SizesIn, NewReady};

use crate::{Layout, Plan, reading};
use correct::{records, references, tiles};
use edit_walks::{Spot, Wanted, freeing};
use header::{entries, fields};
use tile_sizes;
use written_records::pieces as parts;

// The cell bytes over those of the plain record at x.
fn over_cut(out: &mut [u8], n: usize, x: usize, sizes: &[u32], cells: &[u8], k: usize) -> usize
    requires { (SizesIn (page_in out.old n) sizes.now) × (x < 4294967296) }
    ensures left { result ≡ k - store_count (over_writes (checksum_enabled (page_in out.old n)) x (length_at (page_in out.old n) x) (element_bytes (page_in out.old n)) (entries_read (page_in out.old n)) cells.now out.old) }
    ensures holds { out.new ≡ stopped k (over_writes (checksum_enabled (page_in out.old n)) x (length_at (page_in out.old n) x) (element_bytes (page_in out.old n)) (entries_read (page_in out.old n)) cells.now out.old) out.old }
{
    let s = wire::part_of(out, 0, n);
    let flag = fields::checksum_enabled(s);
    let long = wire::u32_at(s, x) as usize;
    let count = entries::entries_read(s) as u8;
    tiles::put_over_cut(out, x as u32, long, flag, sizes, count, cells, k)
}

// The old record freed, the new one, n bytes long, and what is left over.
fn put_new_cut(
    out: &mut [u8],
    n: usize,
    tile: u32,
    p: Layout,
    spot: Spot,
    long: usize,
    sizes: &[u32],
    count: u8,
    cells: &[u8],
    k: usize,
) -> usize
    requires { NewReady (page_in out.old n) tile p spot long sizes.now count }
    ensures left { result ≡ k - store_count (new_writes (length out.old) (page_in out.old n) tile cells.now) }
    ensures holds { out.new ≡ stopped k (new_writes (length out.old) (page_in out.old n) tile cells.now) out.old }
{
    let a = freeing::join_cut(out, n, p.flag, p.end, Wanted::Tile(tile), k);
    let b = tiles::put_tile_cut(out, spot.at, tile, p.flag, sizes, count, cells, a);
    let rest = parts::difference(spot.room, long);
    records::put_rest_cut(out, spot.at + long, rest, p.flag, b)
}

// The same with the reference to it.
fn new_cut(
    out: &mut [u8],
    n: usize,
    tile: u32,
    spot: Spot,
    sizes: &[u32],
    cells: &[u8],
    k: usize,
) -> usize
    requires { (SizesIn (page_in out.old n) sizes.now) × ((workable (page_in out.old n) ≡ true) × ((spot ≡ spot_of (page_in out.old n) tile (plain_tile_length (page_in out.old n))) × (spot.at + plain_tile_length (page_in out.old n) ≤ 16777216))) }
    ensures left { result ≡ k - store_count (then_refer (page_in out.old n) tile (content_at (stored_at (page_in out.old n) tile)) (new_writes (length out.old) (page_in out.old n) tile cells.now) out.old) }
    ensures holds { out.new ≡ stopped k (then_refer (page_in out.old n) tile (content_at (stored_at (page_in out.old n) tile)) (new_writes (length out.old) (page_in out.old n) tile cells.now) out.old) out.old }
{
    let s = wire::part_of(out, 0, n);
    let p = reading::layout_of(s);
    let long = tile_sizes::plain_tile_length(s);
    let count = entries::entries_read(s) as u8;
    let a = put_new_cut(out, n, tile, p, spot, long, sizes, count, cells, k);
    references::refer_cut(
        out,
        p.directory,
        p.long,
        p.flag,
        p.wide,
        tile,
        spot.at as u64 + 8,
        a,
    )
}

// As it was planned.
pub(crate) fn storing_cut(
    out: &mut [u8],
    n: usize,
    tile: u32,
    plan: Plan,
    cells: &[u8],
    k: usize,
) -> usize
    requires { (workable (page_in out.old n) ≡ true) × ((plan ≡ plan_of (page_in out.old n) tile) × (stored_length (page_in out.old n) tile ≤ 16777216)) }
    ensures left { result ≡ k - store_count (store_writes out.old (page_in out.old n) tile cells.now) }
    ensures holds { out.new ≡ stopped k (store_writes out.old (page_in out.old n) tile cells.now) out.old }
{
    let mut sizes = [0u32; 16];
    tile_sizes::element_sizes(wire::part_of(out, 0, n), &mut sizes);
    let over = plan.over;
    match over {
        Some(x) => over_cut(out, n, x, &sizes, cells, k),
        None => new_cut(out, n, tile, plan.spot, &sizes, cells, k),
    }
}
