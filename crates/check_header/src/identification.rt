// Stages 1 and 2: the identification block.
ghost use Rattle.std.specs.Prelude.{◌≡◌};
ghost use Rattle.check_header.specs.Identification.{identified, version_right};

// Stage 1: at least 16 bytes, and the first 12 are the mark.
pub fn is_identified(s: &[u8], length: usize) -> bool
    ensures { result ≡ identified s.now length }
{
    if length < 16 {
        return false;
    }
    wire::same_bytes(wire::part_of(s, 0, 12), b"gvrs raster\0")
}

// Stage 2: version 1.4.
pub fn version_right(s: &[u8]) -> bool
    ensures { result ≡ version_right s.now }
{
    if wire::byte_at(s, 12) != 1 {
        return false;
    }
    if wire::byte_at(s, 13) != 4 {
        return false;
    }
    true
}
