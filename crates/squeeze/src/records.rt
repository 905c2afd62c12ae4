// A kept record put at its new start.
ghost use Rattle.std.specs.Prelude.{◌≡◌, ◌-◌, ◌≤◌};
ghost use Rattle.stores.specs.Stores.{store_count, stopped};
ghost use Rattle.stores.specs.Writes.{one_write};
ghost use Rattle.plans.specs.Moved.{named_in, Ascend};
ghost use Rattle.squeeze.specs.Kept.{width_at, count_at, tiles_put, metadata_put, kept_put, TilesFit, MetadataFit, KeptFits};

use crate::{fields, moving};
use bodies::tile_directory;
use stores;

// The bytes of a reference of the tile directory at a position.
fn width_at(s: &[u8], x: usize) -> usize
    ensures { result ≡ width_at s.now x }
{
    if tile_directory::standard_references(s, x) == 1 {
        return 8;
    }
    4
}

// How many of them there are.
fn count_at(s: &[u8], x: usize) -> usize
    ensures { result ≡ count_at s.now x }
{
    let rows = tile_directory::listed_rows(s, x) as usize;
    let columns = tile_directory::listed_columns(s, x) as usize;
    rows * columns
}

// The tile directory at a position put at or below it.
fn put_tiles_cut(out: &mut [u8], to: usize, from: usize, flag: u32, plan: &[u64], k: usize) -> usize
    requires { (to ≤ from) × (Ascend plan.now × TilesFit out.old from) }
    ensures left { result ≡ k - store_count (one_write to (tiles_put flag (named_in plan.now) out.old from)) }
    ensures holds { out.new ≡ stopped k (one_write to (tiles_put flag (named_in plan.now) out.old from)) out.old }
{
    let n = wire::u32_at(out, from) as usize;
    let w = width_at(out, from);
    let count = count_at(out, from);
    let a = fields::put_fields_cut(out, to, from, n, 32, false, w, count, plan, k);
    stores::seal_cut(out, to, n, flag, a)
}

// The metadata directory.
fn put_metadata_cut(
    out: &mut [u8],
    to: usize,
    from: usize,
    flag: u32,
    plan: &[u64],
    k: usize,
) -> usize
    requires { (to ≤ from) × (Ascend plan.now × MetadataFit out.old from) }
    ensures left { result ≡ k - store_count (one_write to (metadata_put flag (named_in plan.now) out.old from)) }
    ensures holds { out.new ≡ stopped k (one_write to (metadata_put flag (named_in plan.now) out.old from)) out.old }
{
    let n = wire::u32_at(out, from) as usize;
    let count = wire::u32_off(out, from, 8) as usize;
    let a = fields::put_fields_cut(out, to, from, n, 12, true, 8, count, plan, k);
    stores::seal_cut(out, to, n, flag, a)
}

// Any kept record: a directory's references are put anew, the others are moved as they are.
pub(crate) fn put_kept_cut(
    out: &mut [u8],
    to: usize,
    from: usize,
    flag: u32,
    plan: &[u64],
    k: usize,
) -> usize
    requires { (to ≤ from) × (Ascend plan.now × KeptFits out.old from) }
    ensures left { result ≡ k - store_count (one_write to (kept_put flag (named_in plan.now) out.old from)) }
    ensures holds { out.new ≡ stopped k (one_write to (kept_put flag (named_in plan.now) out.old from)) out.old }
{
    let kind = wire::byte_off(out, from, 4);
    if kind == record::TILE_DIRECTORY {
        return put_tiles_cut(out, to, from, flag, plan, k);
    }
    if kind == record::METADATA_DIRECTORY {
        return put_metadata_cut(out, to, from, flag, plan, k);
    }
    let n = wire::u32_at(out, from) as usize;
    moving::move_down_cut(out, to, from, n, k)
}
