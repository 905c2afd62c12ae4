// Where a record has moved to.
ghost use Rattle.std.specs.Prelude.{◌≡◌};
ghost use Rattle.plans.specs.Moved.{named_in, Ascend};

// The new content of the record whose content was c, by halving.
pub(crate) fn named_in(plan: &[u64], c: u64) -> u64
    requires { Ascend plan.now }
    ensures { result ≡ named_in plan.now c }
{
    if c < 8 {
        return 0;
    }
    let start = c - 8;
    let mut low = 0;
    let mut high = plan.len();
    while low < high {
        let middle = low + (high - low) / 2;
        let z = plan[middle];
        let old = z / 4294967296;
        if old == start {
            return z % 4294967296 + 8;
        }
        if old < start {
            low = middle + 1;
        } else {
            high = middle;
        }
    }
    0
}
