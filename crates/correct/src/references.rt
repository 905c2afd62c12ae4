// A reference of the tile directory put into a lent buffer, and the directory's checksum.
ghost use Rattle.std.specs.Prelude.{◌≡◌, ◌-◌, ◌/◌, ◌≤◌, length, eqb};
ghost use Rattle.wire.specs.Pick.{pick};
ghost use Rattle.stores.specs.Stores.{store_count, stopped};
ghost use Rattle.correct.specs.RecordWrites.{reference_write, refer_writes};

use stores;
use wire::writing;

// What a reference of w bytes has to a content's position: eight bytes have it as it is, four divided by 8.
fn reference_value(w: usize, content: u64) -> u64
    ensures { result ≡ pick (eqb w 8) content (content / 8) }
{
    if w == 8 {
        return content;
    }
    content / 8
}

// Reference number i of the tile directory at x, to a content's position, or zero.
fn put_reference_cut(out: &mut [u8], x: usize, w: usize, i: u32, content: u64, k: usize) -> usize
    requires { w ≤ 8 }
    ensures left { result ≡ k - store_count (reference_write (length out.old) x w i content) }
    ensures holds { out.new ≡ stopped k (reference_write (length out.old) x w i content) out.old }
{
    let p = 32 + w * (i as usize);
    let room = out.len();
    if room < p + w {
        return k;
    }
    if room - (p + w) < x {
        return k;
    }
    let mut bytes = [0u8; 8];
    writing::put_u64(&mut bytes, 0, reference_value(w, content));
    stores::put_cut(out, x + p, wire::part_of(&bytes, 0, w), k)
}

// The bytes of a reference, standard or compact.
fn width(wide: bool) -> usize
    ensures is { result ≡ pick wide 8 4 }
    ensures small { result ≤ 8 }
{
    if wide {
        return 8;
    }
    4
}

// A reference, eight bytes or four, with the directory's checksum, over the buffer's own bytes. The directory is n bytes long.
pub fn refer_cut(
    out: &mut [u8],
    x: usize,
    n: usize,
    flag: u32,
    wide: bool,
    i: u32,
    content: u64,
    k: usize,
) -> usize
    ensures left { result ≡ k - store_count (refer_writes flag x n (pick wide 8 4) i content out.old) }
    ensures holds { out.new ≡ stopped k (refer_writes flag x n (pick wide 8 4) i content out.old) out.old }
{
    let w = width(wide);
    let a = put_reference_cut(out, x, w, i, content, k);
    stores::seal_cut(out, x, n, flag, a)
}
