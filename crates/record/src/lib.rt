// Records and the cursor over their chain.
#![tactic(auto)]

pub mod chain;
pub mod frame;
pub mod walk;

ghost use Rattle.std.specs.Prelude.{◌≡◌};
ghost use Rattle.record.specs.Record.{record_ok, step_at};

// The types of records (G Table 1).
pub const FREE: u32 = 0;

pub const METADATA: u32 = 1;

pub const TILE: u32 = 2;

pub const FILE_SPACE_DIRECTORY: u32 = 3;

pub const METADATA_DIRECTORY: u32 = 4;

pub const TILE_DIRECTORY: u32 = 5;

pub const HEADER: u32 = 6;

// A position in a file at which a record starts, or which is its end.
#[derive(Clone, Copy)]
pub struct Cursor {
    pub at: usize,
}

// What stands at a cursor.
#[derive(Clone, Copy)]
pub enum Step {
    // A record of a type, from start on, length bytes long, and the cursor behind it.
    Record {
        kind: u32,
        start: usize,
        length: usize,
        next: Cursor,
    },
    // A bad record.
    Bad,
    // Nothing more.
    End,
}

// Whether a record stands at a position: its length is a multiple of 8, at least 16, not negative, and ends inside the
// file; its type is 0 to 5.
fn record_ok(s: &[u8], at: usize) -> bool
    ensures { result ≡ record_ok s.now at }
{
    let n = wire::u32_at(s, at);
    if n < 16 {
        return false;
    }
    if wire::LARGEST_INTEGER < n {
        return false;
    }
    if n % 8 != 0 {
        return false;
    }
    let length = n as usize;
    if s.len() < length {
        return false;
    }
    if s.len() - length < at {
        return false;
    }
    if TILE_DIRECTORY < wire::byte_off(s, at, 4) {
        return false;
    }
    true
}

impl Cursor {
    // What stands at the cursor: a record's type and extent and the cursor behind it, a bad record, or the file's end.
    pub fn step(self, s: &[u8]) -> Step
        ensures { result ≡ step_at s.now self.at }
    {
        let at = self.at;
        if s.len() <= at {
            return Step::End;
        }
        if record_ok(s, at) {
            let kind = wire::byte_off(s, at, 4);
            let length = wire::u32_at(s, at) as usize;
            Step::Record {
                kind,
                start: at,
                length,
                next: Cursor { at: at + length },
            }
        } else {
            Step::Bad
        }
    }
}
