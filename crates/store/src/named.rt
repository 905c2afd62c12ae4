// Metadata records by their name, on any bytes: nothing is checked here.
ghost use Rattle.std.specs.Prelude.{◌≡◌};
ghost use Rattle.record.specs.Record.{type_at};
ghost use Rattle.record.specs.Chain.{first_record};
ghost use Rattle.store.specs.Named.{is_named, name_said};

use bodies::metadata_record;
use record::{Cursor, Step, chain};

// What is said of a name: no metadata record has it, one has it, by its record ID, or more than one.
#[derive(Clone, Copy)]
pub enum NamedIds {
    Absent,
    One(u32),
    Several,
}

// Whether the record at x, of a type, is a metadata record with the name.
fn is_named(s: &[u8], kind: u32, x: usize, name: &[u8]) -> bool
    requires { kind ≡ type_at s.now x }
    ensures { result ≡ is_named s.now name.now x }
{
    if kind == record::METADATA {
        return wire::same_bytes(metadata_record::metadata_name(s, x), name);
    }
    false
}

// The first such record from a position on.
fn first_record_named(s: &[u8], at: usize, name: &[u8]) -> Option<usize>
    ensures { result ≡ first_record s.now at (is_named s.now name.now) }
{
    let mut c = Cursor { at };
    loop {
        let Step::Record {
            kind,
            start,
            length: _,
            next,
        } = c.step(s)
        else {
            return None;
        };
        if is_named(s, kind, start, name) {
            return Some(start);
        }
        c = next;
    }
}

// What is said of a name, in one pass over the records at most: it stops at the second that has it.
pub fn name_said(file: &[u8], name: &[u8]) -> NamedIds
    ensures { result ≡ name_said file.now name.now }
{
    match first_record_named(file, chain::header_end(file), name) {
        None => NamedIds::Absent,
        Some(x) => {
            let n = wire::u32_at(file, x) as usize;
            match first_record_named(file, x + n, name) {
                None => NamedIds::One(metadata_record::record_id(file, x)),
                Some(_) => NamedIds::Several,
            }
        }
    }
}
