// The uncompressed sizes of a tile's elements, as the writers of tile records take them. An element's entry is found by passing over
// those before it, so they are worked out once, into 16 numbers.
//
// They are said of a tile that keeps the ceiling on its bytes (stage 4); where it does not, nothing is counted.
#![tactic(auto)]

ghost use Rattle.std.specs.Prelude.{◌≡◌, true};
ghost use Rattle.geometry.specs.Sizes.{plain_tile_length};
ghost use Rattle.tile_sizes.specs.TileSizes.{tile_small, length_of_tile, with_sizes};

use check_header::ceilings::MOST_TILE_BYTES;
use geometry::sizes;
use header::entries;

// Whether one tile keeps the ceiling.
fn is_small(s: &[u8]) -> bool
    ensures { result ≡ tile_small s.now }
{
    sizes::tile_bytes(s) <= MOST_TILE_BYTES
}

// The length of a tile record whose elements are all uncompressed.
fn plain_length(s: &[u8]) -> usize
    requires { tile_small s.now ≡ true }
    ensures { result ≡ plain_tile_length s.now }
{
    let mut sum = 0;
    for e in 0..entries::entries_read(s) {
        sum += sizes::stored_size(sizes::element_bytes(s, e) as u32);
    }
    sizes::least_length((12 + sum) as u32) as usize
}

// The same; 0 where the tile passes the ceiling.
pub fn plain_tile_length(s: &[u8]) -> usize
    ensures { result ≡ length_of_tile s.now }
{
    if is_small(s) { plain_length(s) } else { 0 }
}

// The uncompressed bytes of each element, in the first places of a list of numbers, where it has as many.
pub fn element_sizes(s: &[u8], sizes: &mut [u32])
    ensures { sizes.new ≡ with_sizes s.now sizes.old }
{
    let n = entries::entries_read(s);
    if sizes.len() < n {
        return;
    }
    if is_small(s) {
        for e in 0..n {
            sizes[e] = sizes::element_bytes(s, e) as u32;
        }
    }
}
