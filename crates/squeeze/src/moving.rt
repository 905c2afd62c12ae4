// Bytes moved down in a lent buffer, at most k of them.
ghost use Rattle.std.specs.Prelude.{◌≡◌, ◌+◌, ◌-◌, ◌≤◌, length};
ghost use Rattle.wire.specs.Bytes.{part, put};
ghost use Rattle.stores.specs.Stores.{store_count, stopped};
ghost use Rattle.stores.specs.Writes.{one_write};

// The n bytes from a position on put at or below it, lowest first: what is read lies at or above what is written.
fn slide(out: &mut [u8], to: usize, from: usize, n: usize)
    requires { (to ≤ from) × (from + n ≤ length out.old) }
    ensures { out.new ≡ put out.old to (part out.old from n) }
{
    let mut i = 0;
    while i < n {
        out[to + i] = out[from + i];
        i += 1;
    }
}

// The same, k of them at most.
pub(crate) fn move_down_cut(out: &mut [u8], to: usize, from: usize, n: usize, k: usize) -> usize
    requires { (to ≤ from) × (from + n ≤ length out.old) }
    ensures left { result ≡ k - store_count (one_write to (part out.old from n)) }
    ensures holds { out.new ≡ stopped k (one_write to (part out.old from n)) out.old }
{
    if k < n {
        slide(out, to, from, k);
        return 0;
    }
    slide(out, to, from, n);
    k - n
}
