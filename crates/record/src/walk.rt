// The records behind each other as an iterator: any call of std that takes a closure asks it of them.
ghost use Rattle.std.specs.Prelude.{◌≡◌, ◌-◌, length};
ghost use Rattle.std.specs.Iterator.{at_most};
ghost use Rattle.record.specs.Walk.{Walked};

use crate::{Cursor, Step};

#[cfg(test)]
mod tests;

// The records of a file from a position on, up to the file's end or to the first bad one. Each is given by its type and its start.
#[derive(Drop)]
pub struct Records<'a> {
    pub file: &'a [u8],
    pub at: usize,
}

impl Iterator for Records<'_> {
    type Item = (u32, usize);

    ghost next_gives = { λ a r b. Walked a.file.now a.at r b.file.now b.at };

    ghost remaining = { λ a. at_most (length a.file.now - a.at) };

    fn next(&mut self) -> Option<(u32, usize)> {
        let c = Cursor { at: self.at };
        let Step::Record {
            kind,
            start,
            length: _,
            next,
        } = c.step(self.file)
        else {
            return None;
        };
        self.at = next.at;
        Some((kind, start))
    }
}

// The records of a file from a position on.
pub fn records_from(s: &[u8], from: usize) -> Records<'_>
    ensures file { result.file.now ≡ s.now }
    ensures at { result.at ≡ from }
{
    Records { file: s, at: from }
}
