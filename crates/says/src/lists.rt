// Lists of items of one size: from which item on, and as many whole items as fit.
ghost use Rattle.std.specs.Prelude.{◌≡◌, ◌≤◌, ◌<◌, length};
ghost use Rattle.wire.specs.Bytes.{put};
ghost use Rattle.says.specs.Lists.{listed_number, listed_first, listed_more, offered, offered_to};

use answer::Refusal;

// How many items were taken, and how many there are from the first that was asked for on.
#[derive(Clone, Copy)]
pub enum Listed {
    Items { taken: u64, more: u64 },
    Refused(Refusal),
}

// 0, or the refusal's number.
pub fn listed_number(x: Listed) -> u32
    ensures { result ≡ listed_number x }
{
    match x {
        Listed::Items { .. } => 0,
        Listed::Refused(r) => answer::refusal_number(r),
    }
}

// How many items were taken, or the refusal's place.
pub fn listed_first(x: Listed) -> u64
    ensures { result ≡ listed_first x }
{
    match x {
        Listed::Items { taken, .. } => taken,
        Listed::Refused(r) => answer::refusal_place(r) as u64,
    }
}

// How many there are from the first that was asked for on; 0 of a refusal.
pub fn listed_more(x: Listed) -> u64
    ensures { result ≡ listed_more x }
{
    match x {
        Listed::Items { more, .. } => more,
        Listed::Refused(_) => 0,
    }
}

// A list under way: how many items are still to be passed over, where the next one goes, how many were taken, and how many were seen
// behind those passed over.
#[derive(Clone, Copy)]
pub struct Progress {
    pub skip: u64,
    pub at: usize,
    pub taken: u64,
    pub seen: u64,
}

// The numbers of an item, from a place on, where they fit whole.
fn put_item(numbers: &mut [u64], at: usize, item: &[u64])
    ensures { numbers.new ≡ put numbers.old at item.now }
{
    if numbers.len() < item.len() {
        return;
    }
    if numbers.len() - item.len() < at {
        return;
    }
    let mut i = 0;
    while i < item.len() {
        numbers[at + i] = item[i];
        i += 1;
    }
}

// Where a list stands behind an item of n numbers.
fn behind_item(p: Progress, room: usize, n: usize) -> Progress
    requires { (p.at ≤ room) × ((p.taken ≤ p.seen) × (p.seen < 9223372036854775808)) }
    ensures { result ≡ offered n room p }
{
    let skip = p.skip;
    let at = p.at;
    let taken = p.taken;
    let seen = p.seen;
    if 0 < skip {
        return Progress {
            skip: skip - 1,
            at,
            taken,
            seen,
        };
    }
    if room - at < n {
        return Progress {
            skip,
            at,
            taken,
            seen: seen + 1,
        };
    }
    Progress {
        skip,
        at: at + n,
        taken: taken + 1,
        seen: seen + 1,
    }
}

// An item is given to a list: it is passed over, taken or left out.
pub(crate) fn offer(p: Progress, numbers: &mut [u64], item: &[u64]) -> Progress
    requires { (p.at ≤ length numbers.old) × ((p.taken ≤ p.seen) × (p.seen < 9223372036854775808)) }
    ensures is { result ≡ offered (length item.now) (length numbers.old) p }
    ensures numbers { numbers.new ≡ offered_to numbers.old item.now p }
{
    let at = p.at;
    let q = behind_item(p, numbers.len(), item.len());
    if 0 < p.skip {
        return q;
    }
    put_item(numbers, at, item);
    q
}
