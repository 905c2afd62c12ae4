// Rounds of metadata records, in the order of their pairs of name and ID.
ghost use Rattle.std.specs.Prelude.{◌≡◌, ◌≤◌, false, ℕ, ◌+◌, IfSome, None, length, map, take};
ghost use Rattle.wire.specs.Bytes.{same_bytes};
ghost use Rattle.wire.specs.Compare.{pairs_read};
ghost use Rattle.record.specs.Record.{type_at};
ghost use Rattle.metadata_keys.specs.inner.Keys.{list_before, pair_key, key_list, key_of, behind, up_to, in_round, Ascend, Gathered, KeptBehind};
ghost use Rattle.metadata_keys.specs.inner.Ranked.{start_of};

use crate::ranked::{self, Ranked};
use bodies::metadata_record;
use record::{Cursor, Step, chain};

// The most records of a round.
pub const ROUND: usize = 22528;

// The pair of name and ID of a metadata record.
#[derive(Clone, Copy)]
pub struct Key<'a> {
    name: &'a [u8],
    id: u32,
}

// The metadata records whose pairs come behind one, up to another: from the first on where none is below, and all that are left where
// none is above.
#[derive(Clone, Copy)]
pub struct Round<'a> {
    pub low: Option<Key<'a>>,
    pub high: Option<Key<'a>>,
}

// Whether a name comes before another that is not the same, by how many byte pairs their comparison read. Where it read none the
// lengths differ, and the shorter name comes first; else the last pair is the first that differs, and the smaller byte comes first.
fn name_before(a: &[u8], b: &[u8], pairs: usize) -> bool
    requires apart { same_bytes a.now b.now ≡ false }
    requires told { pairs ≡ pairs_read a.now b.now }
    ensures { (i j : ℕ) → result ≡ list_before (pair_key a.now i) (pair_key b.now j) }
{
    match pairs.checked_sub(1) {
        None => a.len() < b.len(),
        Some(last) => wire::byte_at(a, last) < wire::byte_at(b, last),
    }
}

impl Key<'_> {
    // That of the metadata record at x.
    pub fn of(s: &[u8], x: usize) -> Key<'_>
        ensures { key_list result ≡ key_of s.now x }
    {
        Key {
            name: metadata_record::metadata_name(s, x),
            id: metadata_record::record_id(s, x),
        }
    }

    // Whether it comes before another by the name, or by the ID where the names are the same.
    pub fn before(self, other: Key<'_>) -> bool
        ensures { result ≡ list_before (key_list self.entry) (key_list other.entry) }
    {
        let c = wire::compare(self.name, other.name);
        if c.equal {
            return self.id < other.id;
        }
        name_before(self.name, other.name, c.pairs)
    }

    // Whether it comes behind the lower end of a round.
    fn is_behind(self, low: Option<Key<'_>>) -> bool
        ensures { result ≡ behind low.entry (key_list self.entry) }
    {
        match low {
            None => true,
            Some(end) => end.before(self),
        }
    }

    // Whether it does not come behind its upper end.
    fn is_up_to(self, high: Option<Key<'_>>) -> bool
        ensures { result ≡ up_to high.entry (key_list self.entry) }
    {
        match high {
            None => true,
            Some(end) => !end.before(self),
        }
    }
}

// One more behind the first n; none where there is no room for it.
pub fn keep(a: &mut [Ranked], n: usize, x: usize) -> Option<usize>
    ensures { IfSome result (λ m. KeptBehind a.old n x a.new m) }
{
    let record = Ranked::at(x)?;
    if n < a.len() {
        a[n] = record;
        return Some(n + 1);
    }
    None
}

impl Round<'_> {
    // Whether the record of a type at x is one of them.
    fn has(&self, s: &[u8], kind: u32, x: usize) -> bool
        requires { kind ≡ type_at s.now x }
        ensures { result ≡ in_round s.now self.now x }
    {
        if kind != record::METADATA {
            return false;
        }
        let key = Key::of(s, x);
        key.is_behind(self.low) && key.is_up_to(self.high)
    }

    // They are gathered in file order; how many there are, or none where there is no room for them.
    fn gather(&self, s: &[u8], a: &mut [Ranked]) -> Option<usize>
        ensures { IfSome result (λ n. Gathered s.now self.now a.new n) }
    {
        let mut n = 0;
        let mut c = Cursor {
            at: chain::header_end(s),
        };
        loop {
            let Step::Record {
                kind,
                start,
                length: _,
                next,
            } = c.step(s)
            else {
                return Some(n);
            };
            if self.has(s, kind, start) {
                n = keep(a, n, start)?;
            }
            c = next;
        }
    }

    // The same in order.
    pub fn gather_sorted(&self, s: &[u8], a: &mut [Ranked]) -> Option<usize>
        ensures { IfSome result (λ n. Gathered s.now self.now a.new n) }
    {
        let n = self.gather(s, a)?;
        ranked::order(s, &mut a[..n], ranked::WORDS);
        Some(n)
    }
}

// The first record that does not come before the next.
pub fn find_unordered(s: &[u8], a: &[Ranked]) -> Option<usize>
    ensures { result ≡ None → Ascend s.now (map start_of a.now) }
{
    for i in 1..a.len() {
        let x = a[i - 1].start();
        let y = a[i].start();
        if !Key::of(s, x).before(Key::of(s, y)) {
            return Some(x);
        }
    }
    None
}
