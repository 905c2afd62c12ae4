// Stage 8: the body of a metadata record.
ghost use Rattle.std.specs.Prelude.{◌≡◌, ◌+◌, ◌≤◌, ◌<◌, length};
ghost use Rattle.header.specs.Names.{identifier, longest_name};
ghost use Rattle.header.specs.Element.{longest_string};
ghost use Rattle.geometry.specs.Sizes.{cap};
ghost use Rattle.check_records.specs.MetadataBody.{metadata_right};
ghost use Rattle.bodies.specs.MetadataRecord.{metadata_name, metadata_length, metadata_description_at, metadata_end};

use crate::ends;
use bodies::metadata_record;
use header::{entries, names, texts};

// The content's length.
fn metadata_length(s: &[u8], at: usize) -> u32
    requires { at < length s.now }
    ensures { result ≡ metadata_length s.now at }
{
    wire::u32_off(s, metadata_record::record_id_start(s, at), 5)
}

// Where the description stands.
fn description_at(s: &[u8], at: usize) -> usize
    requires { at < length s.now }
    ensures is { result ≡ metadata_description_at s.now at }
    ensures near { result < at + 17 + longest_string + cap }
{
    metadata_record::record_id_start(s, at) + 9 + metadata_length(s, at) as usize
}

// Where the last field ends.
fn metadata_end(s: &[u8], at: usize) -> usize
    requires { at < length s.now }
    ensures { result ≡ metadata_end s.now at }
{
    let description = description_at(s, at);
    description + entries::string_size(s, description)
}

fn name_right(s: &[u8], at: usize) -> bool
    ensures { result ≡ identifier longest_name (metadata_name s.now at) }
{
    names::is_identifier(metadata_record::metadata_name(s, at), names::LONGEST)
}

pub fn metadata_right(s: &[u8], at: usize) -> bool
    ensures { result ≡ metadata_right s.now at }
{
    if s.len() <= at {
        return false;
    }
    if wire::LARGEST_INTEGER < metadata_length(s, at) {
        return false;
    }
    if ends::end_right(s, at, metadata_end(s, at)) {
        if name_right(s, at) {
            if 9 < metadata_record::data_type(s, at) {
                return false;
            }
            return texts::text_right(s, description_at(s, at));
        }
    }
    false
}
