// Numbers in decimal.
ghost use Rattle.std.specs.Prelude.{◌≡◌, ◌≤◌, length};
ghost use Rattle.wire.specs.Bytes.{put};
ghost use Rattle.listing.specs.Text.{decimal};

// How many digits a number has.
fn decimal_length(n: u64) -> usize
    ensures is { result ≡ length (decimal n) }
    ensures few { result ≤ 20 }
{
    let mut v = n;
    let mut k = 1;
    while 10 <= v {
        v = v / 10;
        k += 1;
    }
    k
}

// The digits of a number, highest first, and how many they are. The last digit is written first.
pub fn put_decimal(out: &mut [u8], at: usize, n: u64) -> usize
    ensures long { result ≡ length (decimal n) }
    ensures few { result ≤ 20 }
    ensures holds { out.new ≡ put out.old at (decimal n) }
{
    let long = decimal_length(n);
    if out.len() < long {
        return long;
    }
    if out.len() - long < at {
        return long;
    }
    let mut v = n;
    let mut k = long;
    while 10 <= v {
        k -= 1;
        out[at + k] = (48 + v % 10) as u8;
        v = v / 10;
    }
    out[at] = (48 + v) as u8;
    long
}
