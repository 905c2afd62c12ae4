// Stage 7: the checksum of a record, the header's too.
ghost use Rattle.std.specs.Prelude.{◌≡◌};
ghost use Rattle.record.specs.Record.{Told};
ghost use Rattle.check_records.specs.Checksum.{summed_bytes, checksum_of, checksum_at, checksum_right};

use header::fields;

// How many bytes of a record of a type and length are summed: of a free-space record the first eight only.
fn summed_bytes(kind: u32, length: usize) -> usize
    ensures { result ≡ summed_bytes kind length }
{
    if kind == record::FREE {
        return 8;
    }
    length.saturating_sub(4)
}

// What the last four bytes have to be.
fn checksum_of(s: &[u8], kind: u32, at: usize, length: usize) -> u32
    requires { Told s.now kind at length }
    ensures { result ≡ checksum_of s.now at }
{
    if fields::checksum_enabled(s) == 1 {
        return crc32c::crc_part(s, at, summed_bytes(kind, length));
    }
    0
}

// What they are.
fn checksum_at(s: &[u8], kind: u32, at: usize, length: usize) -> u32
    requires { Told s.now kind at length }
    ensures { result ≡ checksum_at s.now at }
{
    wire::u32_off(s, at, length.saturating_sub(4))
}

pub(crate) fn checksum_right(s: &[u8], kind: u32, at: usize, length: usize) -> bool
    requires { Told s.now kind at length }
    ensures { result ≡ checksum_right s.now at }
{
    if checksum_at(s, kind, at, length) != checksum_of(s, kind, at, length) {
        return false;
    }
    true
}
