// Removing: the tile's record freed, its reference zero.
ghost use Rattle.std.specs.Prelude.{◌≡◌, ◌-◌};
ghost use Rattle.stores.specs.Stores.{store_count, stopped};
ghost use Rattle.correct.specs.Front.{page_in};
ghost use Rattle.correct.specs.Writes.{remove_writes};

use crate::reading;
use correct::references;
use edit_walks::{Wanted, freeing, stored};

pub(crate) fn removing_cut(out: &mut [u8], n: usize, tile: u32, k: usize) -> usize
    ensures left { result ≡ k - store_count (remove_writes out.old (page_in out.old n) tile) }
    ensures holds { out.new ≡ stopped k (remove_writes out.old (page_in out.old n) tile) out.old }
{
    let s = wire::part_of(out, 0, n);
    if stored::is_there(s, tile) {
        let p = reading::layout_of(s);
        let a = freeing::join_cut(out, n, p.flag, p.end, Wanted::Tile(tile), k);
        return references::refer_cut(out, p.directory, p.long, p.flag, p.wide, tile, 0, a);
    }
    k
}
