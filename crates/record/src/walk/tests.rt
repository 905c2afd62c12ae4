// Closures that std asks of the records, and two functions that take any closure which may be asked of them.
ghost use Rattle.std.specs.Prelude.{◌≡◌, ℕ, Bool, length};
ghost use Rattle.wire.specs.Lists.{select};
ghost use Rattle.record.specs.Asked.{Askable, Decides};
ghost use Rattle.record.specs.Chain.{first_record, records};

use super::records_from;

// The first 16 bytes, a header of 16, two records of 16, of metadata and of a tile, and then a bad one, of type 6.
const FILE: [u8; 72] = [
    0, 0, 0, 0, 0, 0, 0, 0, 0, 0, 0, 0, 0, 0, 0, 0, //
    16, 0, 0, 0, 6, 0, 0, 0, 0, 0, 0, 0, 0, 0, 0, 0, //
    16, 0, 0, 0, 1, 0, 0, 0, 0, 0, 0, 0, 0, 0, 0, 0, //
    16, 0, 0, 0, 2, 0, 0, 0, 0, 0, 0, 0, 0, 0, 0, 0, //
    16, 0, 0, 0, 6, 0, 0, 0,
];

// A search by any closure that may be asked of each record of the file, for whatever it decides of them.
fn find<F: Fn(u32, usize) -> bool>(s: &[u8], from: usize, test: F) -> Option<usize>
    requires { Askable s.now (F.pre test) }
    ensures { (p : ℕ → Bool) → Decides s.now (F.post test) p → result ≡ first_record s.now from p }
{
    records_from(s, from)
        .find(
            |x: &(u32, usize)| -> bool
                requires { F.pre test x.now.0 x.now.1 }
                ensures { F.post test x.now.0 x.now.1 result }
            { test(x.0, x.1) },
        )
        .map(|x| x.1)
}

// And a count.
fn count<F: Fn(u32, usize) -> bool>(s: &[u8], test: F) -> usize
    requires { Askable s.now (F.pre test) }
    ensures { (p : ℕ → Bool) → Decides s.now (F.post test) p → result ≡ length (select p (records s.now)) }
{
    records_from(s, crate::chain::header_end(s))
        .filter(
            |x: &(u32, usize)| -> bool
                requires { F.pre test x.now.0 x.now.1 }
                ensures { F.post test x.now.0 x.now.1 result }
            { test(x.0, x.1) },
        )
        .count()
}

#[test]
fn each_record_is_given_once(rt: HostRuntime) {
    let mut records = records_from(&FILE, 32);
    assert_eq!(rt; records.next(), Some((1, 32)));
    assert_eq!(rt; records.next(), Some((2, 48)));
    assert_eq!(rt; records.next(), None);
    assert_eq!(rt; records.next(), None);
    assert_eq!(rt; records_from(&FILE, 48).next(), Some((2, 48)));
    assert_eq!(rt; records_from(&FILE, 72).next(), None);
    assert_eq!(rt; records_from(&FILE, 73).next(), None);
}

#[test]
fn a_closure_is_asked_of_each(rt: HostRuntime) {
    let tile = 2;
    assert_eq!(rt; find(&FILE, 32, |kind, _| kind == tile), Some(48));
    assert_eq!(rt; find(&FILE, 32, |_, at| at < 48), Some(32));
    assert_eq!(rt; find(&FILE, 48, |kind, _| kind != tile), None);
    assert_eq!(rt; count(&FILE, |_, _| true), 2);
    assert_eq!(rt; count(&FILE, |kind, at| kind == tile && at == 48), 1);
    assert_eq!(rt; records_from(&FILE, 48).filter(|x| x.0 == tile).count(), 1);
}
