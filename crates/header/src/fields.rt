// G Table 7: the fields of the header record at fixed places.
ghost use Rattle.std.specs.Prelude.{◌≡◌, ◌≤◌, length};
ghost use Rattle.header.specs.Fields.{header_length, header_type, time_modified, time_opened, file_space_reference, metadata_reference, tile_directory_reference, grid_rows, grid_columns, tile_rows, tile_columns, checksum_enabled, raster_space, coordinate_system, element_count, header_limit};

use record::frame;

pub fn header_length(s: &[u8]) -> u32
    ensures { result ≡ header_length s.now }
{
    wire::u32_at(s, 16)
}

pub fn header_type(s: &[u8]) -> u32
    ensures { result ≡ header_type s.now }
{
    wire::byte_at(s, 20)
}

pub fn time_modified(s: &[u8]) -> u64
    ensures { result ≡ time_modified s.now }
{
    wire::u64_at(s, 40)
}

pub fn time_opened(s: &[u8]) -> u64
    ensures { result ≡ time_opened s.now }
{
    wire::u64_at(s, 48)
}

pub fn file_space_reference(s: &[u8]) -> u64
    ensures { result ≡ file_space_reference s.now }
{
    wire::u64_at(s, 56)
}

pub fn metadata_reference(s: &[u8]) -> u64
    ensures { result ≡ metadata_reference s.now }
{
    wire::u64_at(s, 64)
}

pub fn tile_directory_reference(s: &[u8]) -> u64
    ensures { result ≡ tile_directory_reference s.now }
{
    wire::u64_at(s, 80)
}

pub fn grid_rows(s: &[u8]) -> u32
    ensures { result ≡ grid_rows s.now }
{
    wire::u32_at(s, 104)
}

pub fn grid_columns(s: &[u8]) -> u32
    ensures { result ≡ grid_columns s.now }
{
    wire::u32_at(s, 108)
}

pub fn tile_rows(s: &[u8]) -> u32
    ensures { result ≡ tile_rows s.now }
{
    wire::u32_at(s, 112)
}

pub fn tile_columns(s: &[u8]) -> u32
    ensures { result ≡ tile_columns s.now }
{
    wire::u32_at(s, 116)
}

pub fn checksum_enabled(s: &[u8]) -> u32
    ensures { result ≡ checksum_enabled s.now }
{
    wire::byte_at(s, 128)
}

pub fn raster_space(s: &[u8]) -> u32
    ensures { result ≡ raster_space s.now }
{
    wire::byte_at(s, 129)
}

pub fn coordinate_system(s: &[u8]) -> u32
    ensures { result ≡ coordinate_system s.now }
{
    wire::byte_at(s, 130)
}

pub fn element_count(s: &[u8]) -> u32
    ensures { result ≡ element_count s.now }
{
    wire::u32_at(s, 280)
}

// The position of the header's last four bytes, no further than the bytes go.
pub fn header_limit(s: &[u8]) -> usize
    ensures is { result ≡ header_limit s.now }
    ensures inside { result ≤ length s.now }
{
    frame::record_limit(s, 16)
}
