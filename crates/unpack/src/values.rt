// The numbers of cells: their range, their bits, and where they go.
ghost use Rattle.std.specs.Prelude.{◌≡◌, List, ◌++◌, ℕ, length, get_or};
ghost use Rattle.wire.specs.Bytes.{put};
ghost use Rattle.unpack.specs.Unpack.{is_short, all_short, in_range, bits_of_cell, bits_of};
ghost use Rattle.unpack.specs.Steps.{fitted};

// Whether a number is a Short's.
fn is_short(v: u32) -> bool
    ensures { result ≡ is_short v }
{
    if v <= 32767 {
        return true;
    }
    4294934528 <= v
}

// Whether all of a row are.
fn all_short(row: &[u32]) -> bool
    ensures { result ≡ all_short row.now }
{
    row.iter().all(|v| is_short(*v))
}

// Whether the numbers of a row are in the range of their type.
pub fn in_range(short: bool, row: &[u32]) -> bool
    ensures { result ≡ in_range short row.now }
{
    if short {
        return all_short(row);
    }
    true
}

// The bits of a cell.
fn cell_bits(short: bool, v: u32) -> u32
    ensures { result ≡ bits_of_cell short v }
{
    if short {
        return v % 65536;
    }
    v
}

// Puts the bits of a row's cells at a position, where they fit.
pub fn put_bits(out: &mut [u32], at: usize, short: bool, row: &[u32])
    ensures { out.new ≡ put out.old at (bits_of short row.now) }
{
    if out.len() < row.len() {
        return;
    }
    if out.len() - row.len() < at {
        return;
    }
    for (i, v) in row.iter().enumerate() {
        out[at + i] = cell_bits(short, *v);
    }
}

// The same, where all the cells of a tile would fit.
pub fn put_of_tile(out: &mut [u32], cells: usize, at: usize, short: bool, row: &[u32])
    ensures { out.new ≡ fitted cells out.old at (bits_of short row.now) }
{
    if out.len() < cells {
        return;
    }
    put_bits(out, at, short, row);
}

// The bits of the cell `inside`, where it is in the row behind the first `at` cells; of those before it is `found`.
pub fn cell_or(found: u32, at: usize, short: bool, row: &[u32], inside: usize) -> u32
    ensures { (vs : List ℕ) → length vs ≡ at → found ≡ get_or (bits_of short vs) inside 0 → result ≡ get_or (bits_of short (vs ++ row.now)) inside 0 }
{
    if inside < at {
        return found;
    }
    let j = inside - at;
    if row.len() <= j {
        return 0;
    }
    cell_bits(short, row[j])
}
