// Places on a line that is cut into blocks of one length. A part of the line has its own count of places, from the line's place
// `first` on.
#![tactic(auto)]

ghost use Rattle.std.specs.Prelude.{◌≡◌, ◌+◌, ◌%◌, ◌≤◌, ◌<◌};
ghost use Rattle.blocks.specs.Blocks.{block_end};

// The remainder of a sum that may pass 64 bits.
fn sum_remainder(a: u64, b: u64, m: u64) -> u64
    requires { 1 ≤ m }
    ensures is { result ≡ (a + b) % m }
    ensures less { result < m }
{
    let x = a % m;
    let y = b % m;
    if x < m - y {
        return x + y;
    }
    x - (m - y)
}

// Where the block that holds the part's place `at` ends, or the part's `end` where that comes first.
pub fn block_end(first: u64, at: u64, side: u64, end: u64) -> u64
    ensures { result ≡ block_end first at side end }
{
    if side == 0 {
        return 0;
    }
    if end <= at {
        return end;
    }
    let rest = side - sum_remainder(first, at, side);
    if rest < end - at {
        return at + rest;
    }
    end
}
