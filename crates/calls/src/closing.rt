// Closing: the list of free records behind the page, if there are any, then the header.
ghost use Rattle.std.specs.Prelude.{◌≡◌, true, ◌-◌, length};
ghost use Rattle.header.specs.Fields.{checksum_enabled};
ghost use Rattle.stores.specs.Stores.{store_count, stopped};
ghost use Rattle.correct.specs.Front.{page_in, workable};
ghost use Rattle.correct.specs.Closing.{any_free};
ghost use Rattle.correct.specs.Writes.{list_writes, close_writes};

use correct::{directories, front};
use edit_walks::stored;
use header::fields;
use record::chain;

// The list of free records, if there are any.
fn list_cut(out: &mut [u8], n: usize, flag: u32, there: bool, k: usize) -> usize
    requires { (workable (page_in out.old n) ≡ true) × ((flag ≡ checksum_enabled (page_in out.old n)) × (there ≡ any_free (page_in out.old n))) }
    ensures left { result ≡ k - store_count (list_writes (length out.old) (page_in out.old n)) }
    ensures holds { out.new ≡ stopped k (list_writes (length out.old) (page_in out.old n)) out.old }
{
    if there {
        return directories::put_list_cut(out, n as u32, flag, k);
    }
    k
}

pub(crate) fn closing_cut(out: &mut [u8], n: usize, time: u64, k: usize) -> usize
    requires { workable (page_in out.old n) ≡ true }
    ensures left { result ≡ k - store_count (close_writes out.old (page_in out.old n) time) }
    ensures holds { out.new ≡ stopped k (close_writes out.old (page_in out.old n) time) out.old }
{
    let s = wire::part_of(out, 0, n);
    let flag = fields::checksum_enabled(s);
    let end = chain::header_end(s);
    let there = stored::any_free(s);
    let p = front::first_set(wire::part_of(s, 48, 8));
    let a = list_cut(out, n, flag, there, k);
    front::put_closing_cut(out, flag, end, time, there, n as u32, p as u8, a)
}
