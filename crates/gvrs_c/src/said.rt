// What a page says of itself: its stored tiles, its metadata records and the names of its compression methods.
ghost use Rattle.std.specs.Prelude.{◌≡◌, [], ◌∷◌, length};
ghost use Rattle.wire.specs.Bytes.{put};
ghost use Rattle.answer.specs.Answers.{lookup_kind, lookup_number};
ghost use Rattle.says.specs.Lists.{listed, listed_numbers, listed_number};
ghost use Rattle.says.specs.Methods.{method_says, method_indexes};
ghost use Rattle.says.specs.Metadata.{metadata_says, metadata_records, read_metadata};
ghost use Rattle.says.specs.Tiles.{tile_says, stored_tiles};
ghost use Rattle.gvrs_c.specs.Report.{reported, list_numbers};

use says::lists::Listed;
use says::{lists, metadata, methods, tiles};

// The numbers of a list: how many items were taken, and how many there are; of a refusal its place, and 0.
fn tell_listed(x: Listed, out: &mut [u64]) -> u32
    ensures number { result ≡ listed_number x }
    ensures numbers { out.new ≡ reported (list_numbers x) out.old }
{
    crate::report(out, 0, lists::listed_first(x));
    crate::report(out, 1, lists::listed_more(x));
    lists::listed_number(x)
}

// The stored tiles from one on, ascending, four numbers each, as many as fit whole: 0, and out[0] takes how many were taken, out[1] how
// many there are; else the refusal's number, its place and 0, and `numbers` is as it was.
#[unsafe(no_mangle)]
pub extern "C" fn gvrs_tiles(file: &[u8], from: u64, numbers: &mut [u64], out: &mut [u64]) -> u32
    ensures number { result ≡ listed_number (listed file.now 4 from (stored_tiles file.now) (length numbers.old)) }
    ensures told { out.new ≡ reported (list_numbers (listed file.now 4 from (stored_tiles file.now) (length numbers.old))) out.old }
    ensures numbers { numbers.new ≡ put numbers.old 0 (listed_numbers file.now (tile_says file.now) 4 from (stored_tiles file.now) (length numbers.old)) }
{
    let x = tiles::tiles(file, from, numbers);
    tell_listed(x, out)
}

// The metadata records in file order, nine numbers each, in the same way.
#[unsafe(no_mangle)]
pub extern "C" fn gvrs_metadata(file: &[u8], from: u64, numbers: &mut [u64], out: &mut [u64]) -> u32
    ensures number { result ≡ listed_number (listed file.now 9 from (metadata_records file.now) (length numbers.old)) }
    ensures told { out.new ≡ reported (list_numbers (listed file.now 9 from (metadata_records file.now) (length numbers.old))) out.old }
    ensures numbers { numbers.new ≡ put numbers.old 0 (listed_numbers file.now (metadata_says file.now) 9 from (metadata_records file.now) (length numbers.old)) }
{
    let x = metadata::metadata(file, from, numbers);
    tell_listed(x, out)
}

// The names of the compression methods by index, two numbers each, in the same way.
#[unsafe(no_mangle)]
pub extern "C" fn gvrs_methods(file: &[u8], from: u64, numbers: &mut [u64], out: &mut [u64]) -> u32
    ensures number { result ≡ listed_number (listed file.now 2 from (method_indexes file.now) (length numbers.old)) }
    ensures told { out.new ≡ reported (list_numbers (listed file.now 2 from (method_indexes file.now) (length numbers.old))) out.old }
    ensures numbers { numbers.new ≡ put numbers.old 0 (listed_numbers file.now (method_says file.now) 2 from (method_indexes file.now) (length numbers.old)) }
{
    let x = methods::methods(file, from, numbers);
    tell_listed(x, out)
}

// 32 where a metadata record has the name and the ID, 33 where none has, else the refusal's number; out[0] takes its number for
// `gvrs_metadata`, 0, or the refusal's place.
#[unsafe(no_mangle)]
pub extern "C" fn gvrs_find_metadata(file: &[u8], name: &[u8], id: u32, out: &mut [u64]) -> u32
    ensures kind { result ≡ lookup_kind (read_metadata file.now name.now id) }
    ensures number { out.new ≡ reported (lookup_number (read_metadata file.now name.now id) ∷ []) out.old }
{
    let found = metadata::find_metadata(file, name, id);
    crate::report(out, 0, answer::lookup_number(found) as u64);
    answer::lookup_kind(found)
}
