// The fields of a metadata record.
ghost use Rattle.std.specs.Prelude.{◌≡◌, ◌+◌, ◌≤◌, ◌<◌, length};
ghost use Rattle.wire.specs.Bytes.{u16_at, part_at};
ghost use Rattle.header.specs.Element.{longest_string};
ghost use Rattle.bodies.specs.MetadataRecord.{metadata_name, record_id_at, record_id_start, record_id, data_type};

use header::entries;

// Where the record ID stands.
fn record_id_at(s: &[u8], at: usize) -> usize
    requires { at < length s.now }
    ensures is { result ≡ record_id_at s.now at }
    ensures near { result ≤ at + 8 + longest_string }
{
    at + 8 + entries::string_size(s, at + 8)
}

// The same for any position; 0 where it is past the file.
pub fn record_id_start(s: &[u8], at: usize) -> usize
    ensures is { result ≡ record_id_start s.now at }
    ensures near { result ≤ at + 8 + longest_string }
{
    if s.len() <= at {
        return 0;
    }
    record_id_at(s, at)
}

// The record ID; 0 where it does not lie in the file.
pub fn record_id(s: &[u8], at: usize) -> u32
    ensures { result ≡ record_id s.now at }
{
    if s.len() <= at {
        return 0;
    }
    wire::u32_at(s, record_id_at(s, at))
}

// The data type.
pub fn data_type(s: &[u8], at: usize) -> u32
    ensures { result ≡ data_type s.now at }
{
    if s.len() <= at {
        return 0;
    }
    wire::byte_off(s, record_id_at(s, at), 4)
}

// The bytes of the name, as that part of the file itself; the empty part where they do not lie whole in it.
pub fn metadata_name(s: &[u8], at: usize) -> &[u8]
    ensures holds { result.now ≡ metadata_name s.now at }
    ensures block { result.ref_ptr.0 ≡ s.entry.ref_ptr.0 }
    ensures offset { result.ref_ptr.1 ≡ s.entry.ref_ptr.1 + part_at s.now (at + 10) (u16_at s.now (at + 8)) }
{
    if s.len() <= at {
        return &s[..0];
    }
    wire::part_of(s, at + 10, wire::u16_off(s, at, 8) as usize)
}
