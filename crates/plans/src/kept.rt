// The records of a page that are kept, in file order.
ghost use Rattle.std.specs.Prelude.{◌≡◌, length};
ghost use Rattle.record.specs.Record.{type_at};
ghost use Rattle.record.specs.Chain.{first_record};
ghost use Rattle.correct.specs.Plan.{is_kept, kept_starts};

use record::{Cursor, Step, chain};

// Whether the record of a type at a position is kept: it is not free.
fn is_kept(s: &[u8], kind: u32, at: usize) -> bool
    requires { kind ≡ type_at s.now at }
    ensures { result ≡ is_kept s.now at }
{
    if kind == record::FREE {
        return false;
    }
    true
}

// The first such record from a position on.
pub fn next_kept(s: &[u8], at: usize) -> Option<usize>
    ensures { result ≡ first_record s.now at (is_kept s.now) }
{
    let mut c = Cursor { at };
    loop {
        let Step::Record {
            kind,
            start,
            length: _,
            next,
        } = c.step(s)
        else {
            return None;
        };
        if is_kept(s, kind, start) {
            return Some(start);
        }
        c = next;
    }
}

// How many there are: the starts that a plan gives.
pub fn kept_count(s: &[u8]) -> usize
    ensures { result ≡ length (kept_starts s.now) }
{
    let mut at = chain::header_end(s);
    let mut found = 0;
    loop {
        match next_kept(s, at) {
            None => return found,
            Some(x) => {
                at = x + wire::u32_at(s, x) as usize;
                found += 1;
            }
        }
    }
}
