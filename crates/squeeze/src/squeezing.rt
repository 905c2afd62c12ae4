// All records and gaps, then the header.
ghost use Rattle.std.specs.Prelude.{◌≡◌, ◌-◌};
ghost use Rattle.record.specs.Chain.{header_end, joined};
ghost use Rattle.stores.specs.Stores.{store_count, stopped};
ghost use Rattle.stores.specs.Writes.{one_write};
ghost use Rattle.correct.specs.Front.{page_in};
ghost use Rattle.correct.specs.Squeezing.{squeezed_pieces};
ghost use Rattle.correct.specs.Writes.{squeeze_writes};
ghost use Rattle.plans.specs.Moved.{new_starts};
ghost use Rattle.squeeze.specs.Ready.{PlanReady};

use crate::{finding, records};
use correct::records as gaps;
use header::fields;
use record::chain;
use stores;

// Each kept record at its new start, and each gap one zeroed free record, in file order: what is read lies at or above what is written.
fn put_records_cut(out: &mut [u8], n: usize, plan: &[u64], k: usize) -> usize
    requires { PlanReady out.old n plan.now }
    ensures left { result ≡ k - store_count (one_write (header_end (page_in out.old n)) (joined (squeezed_pieces (page_in out.old n) (new_starts plan.now)))) }
    ensures holds { out.new ≡ stopped k (one_write (header_end (page_in out.old n)) (joined (squeezed_pieces (page_in out.old n) (new_starts plan.now)))) out.old }
{
    let flag = fields::checksum_enabled(wire::part_of(out, 0, n));
    let mut e = chain::header_end(wire::part_of(out, 0, n));
    let mut left = k;
    let mut i = 0;
    while i < plan.len() {
        let z = plan[i];
        let x = (z / 4294967296) as usize;
        let p = (z % 4294967296) as usize;
        let long = wire::u32_at(out, x) as usize;
        left = gaps::put_rest_cut(out, e, p - e, flag, left);
        left = records::put_kept_cut(out, p, x, flag, plan, left);
        e = p + long;
        i += 1;
    }
    left
}

// The page in the first n bytes squeezed as a plan says that holds both starts of each record.
pub(crate) fn squeeze_cut(out: &mut [u8], n: usize, plan: &[u64], k: usize) -> usize
    requires { PlanReady out.old n plan.now }
    ensures left { result ≡ k - store_count (squeeze_writes out.old (page_in out.old n) (new_starts plan.now)) }
    ensures holds { out.new ≡ stopped k (squeeze_writes out.old (page_in out.old n) (new_starts plan.now)) out.old }
{
    let flag = fields::checksum_enabled(wire::part_of(out, 0, n));
    let end = chain::header_end(wire::part_of(out, 0, n));
    let metadata = finding::named_in(plan, fields::metadata_reference(wire::part_of(out, 0, n)));
    let tiles = finding::named_in(
        plan,
        fields::tile_directory_reference(wire::part_of(out, 0, n)),
    );
    let a = put_records_cut(out, n, plan, k);
    let b = stores::put_u64_cut(out, 64, metadata, a);
    let c = stores::put_u64_cut(out, 80, tiles, b);
    stores::seal_cut(out, 16, end - 16, flag, c)
}
