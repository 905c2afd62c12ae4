// Stage 9: the header's references, and records that they give or do not give.
ghost use Rattle.std.specs.Prelude.{◌≡◌};
ghost use Rattle.bodies.specs.TileRecord.{tile_index};
ghost use Rattle.check_directory.specs.References.{refers_to, refers_or_zero, no_other};
ghost use Rattle.check_directory.specs.TileRules.{tiles_listed};
ghost use Rattle.bodies.specs.TileDirectory.{tile_reference};
ghost use Rattle.check_directory.specs.inner.Search.{referred, other, unlisted};

use bodies::tile_directory;
use record::chain;

// What the directory gives for the index of the tile record at a position.
fn own_reference(s: &[u8], at: usize) -> u64
    ensures { result ≡ tile_reference s.now (tile_index s.now at) }
{
    tile_directory::tile_reference(s, wire::u32_off(s, at, 8))
}

// The test for a record of a type whose content a reference gives.
#[derive(Clone, Copy)]
struct Referred {
    kind: u32,
    reference: u64,
}

impl chain::Test for Referred {
    ghost passes = { λ t s x. referred s t.kind t.reference x };

    fn test(&self, seen: chain::Seen<'_>) -> bool {
        seen.kind == self.kind && seen.start as u64 + 8 == self.reference
    }
}

// A reference is the content of a record of a type.
pub fn refers_to(s: &[u8], kind: u32, reference: u64) -> bool
    ensures { result ≡ refers_to s.now kind reference }
{
    let test = Referred { kind, reference };
    let found = chain::find(s, chain::header_end(s), &test);
    matches!(found, Some(_))
}

// It may be zero.
pub fn refers_or_zero(s: &[u8], kind: u32, reference: u64) -> bool
    ensures { result ≡ refers_or_zero s.now kind reference }
{
    if reference == 0 {
        return true;
    }
    refers_to(s, kind, reference)
}

// The test for one whose content it does not give.
#[derive(Clone, Copy)]
struct Other {
    kind: u32,
    reference: u64,
}

impl chain::Test for Other {
    ghost passes = { λ t s x. other s t.kind t.reference x };

    fn test(&self, seen: chain::Seen<'_>) -> bool {
        seen.kind == self.kind && seen.start as u64 + 8 != self.reference
    }
}

// No other record of the type exists.
pub fn no_other(s: &[u8], kind: u32, reference: u64) -> bool
    ensures { result ≡ no_other s.now kind reference }
{
    let test = Other { kind, reference };
    let other = chain::find(s, chain::header_end(s), &test);
    matches!(other, None)
}

// The test for a tile record that is not listed at its own index.
#[derive(Clone, Copy)]
struct Unlisted;

impl chain::Test for Unlisted {
    ghost passes = { λ t s x. unlisted s x };

    fn test(&self, seen: chain::Seen<'_>) -> bool {
        seen.kind == record::TILE && own_reference(seen.file, seen.start) != seen.start as u64 + 8
    }
}

// Every tile record is listed at its own index.
pub fn tiles_listed(s: &[u8]) -> bool
    ensures { result ≡ tiles_listed s.now }
{
    let unlisted = chain::find(s, chain::header_end(s), &Unlisted);
    matches!(unlisted, None)
}
