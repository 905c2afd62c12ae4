// What the calls read of a page before they write.
ghost use Rattle.std.specs.Prelude.{◌≡◌, ◌≤◌};
ghost use Rattle.correct.specs.Front.{workable};
ghost use Rattle.calls.specs.Layouts.{is_wide, layout_of};

use crate::Layout;
use bodies::tile_directory;
use check_header::ceilings;
use edit_walks::places;
use header::fields;

// Whether it is such as every call takes for granted.
pub(crate) fn is_workable(s: &[u8]) -> bool
    ensures { result ≡ workable s.now }
{
    let end = places::records_start(s);
    if end < 88 {
        return false;
    }
    if tile_directory::tile_directory_at(s) < end {
        return false;
    }
    ceilings::within_ceilings(s, s.len())
}

// Whether the tile directory's references have eight bytes.
fn is_wide(s: &[u8]) -> bool
    ensures { result ≡ is_wide s.now }
{
    if tile_directory::reference_size(s) != 8 {
        return false;
    }
    true
}

pub(crate) fn layout_of(s: &[u8]) -> Layout
    ensures is { result ≡ layout_of s.now }
    ensures near { result.end ≤ 4294967311 }
{
    let flag = fields::checksum_enabled(s);
    let end = places::records_start(s);
    let directory = tile_directory::tile_directory_at(s);
    let long = wire::u32_at(s, directory) as usize;
    let wide = is_wide(s);
    Layout {
        flag,
        end,
        directory,
        long,
        wide,
    }
}
