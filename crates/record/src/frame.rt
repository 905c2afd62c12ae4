// Where a record starts, and where its fields have to end.
ghost use Rattle.std.specs.Prelude.{◌≡◌, [], ◌∷◌, ◌+◌, ◌*◌, ◌-◌, ◌≤◌, length};
ghost use Rattle.wire.specs.Tests.{◌≤?◌, passes};
ghost use Rattle.record.specs.Record.{record_limit, padded};

// The start of the record whose content starts at a reference.
pub fn record_of(reference: u64) -> usize
    ensures { result ≡ reference - 8 }
{
    if reference < 8 {
        return 0;
    }
    (reference - 8) as usize
}

// Where the checksum of the record at a position starts.
pub fn record_limit(s: &[u8], at: usize) -> usize
    ensures is { result ≡ record_limit s.now at }
    ensures inside { result ≤ length s.now }
{
    let n = wire::u32_at(s, at) as usize;
    if s.len() < 4 {
        return 0;
    }
    if s.len() <= at {
        return s.len() - 4;
    }
    if s.len() - at < n {
        return s.len() - 4;
    }
    if at + n < 4 {
        return 0;
    }
    at + n - 4
}

// So many of a size take no more than the room, with no product that is too large.
fn within(room: u64, count: u64, size: u64) -> bool
    ensures { result ≡ passes ((count * size ≤? room) ∷ []) }
{
    if size == 0 {
        return true;
    }
    if room / size < count {
        return false;
    }
    true
}

// So many entries of a size, behind so many bytes of the record, fit it with 0 to 7 padding bytes.
pub fn entries_fit(s: &[u8], at: usize, fixed: usize, count: u64, size: u64) -> bool
    ensures { result ≡ padded s.now at (at + fixed + count * size) }
{
    let limit = record_limit(s, at);
    if limit < fixed {
        return false;
    }
    if limit - fixed < at {
        return false;
    }
    let room = (limit - fixed - at) as u64;
    if !within(room, count, size) {
        return false;
    }
    if 7 < room - count * size {
        return false;
    }
    true
}

// The fields of the record at a position end at `end`, with 0 to 7 padding bytes behind them.
pub fn padded_to(s: &[u8], at: usize, end: usize) -> bool
    ensures { result ≡ padded s.now at end }
{
    let limit = record_limit(s, at);
    if limit < end {
        return false;
    }
    if 7 < limit - end {
        return false;
    }
    true
}
