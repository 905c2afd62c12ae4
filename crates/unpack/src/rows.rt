// The rows of a tile, one after the other, and the tile that they make.
ghost use Rattle.std.specs.Prelude.{◌≡◌, true, ◌*◌, ◌≤◌, length};
ghost use Rattle.huffman.specs.Tree.{Tree, got};
ghost use Rattle.huffman.specs.Nodes.{Nodes};
ghost use Rattle.huffman.specs.Jumps.{most_nodes, Coded};
ghost use Rattle.unpack.specs.Unpack.{predictor_of, head_right, tree_in, tree_right, symbols, unpacked};
ghost use Rattle.unpack.specs.Steps.{Lined, Rowed, Few, Tiled, Answered};

use crate::head::{count_right, head_right, read_root};
use crate::reading::number_at;
use crate::values::{cell_or, in_range, put_of_tile};

// A row that was made: the bit behind its numbers, and how many bytes their codes have.
#[derive(Clone, Copy)]
pub struct Made {
    pub pos: usize,
    pub bytes: usize,
}

// A tile whose rows were all made: how many bytes the codes of its numbers have, and the cell that was asked for.
#[derive(Clone, Copy)]
pub struct Tile {
    pub bytes: usize,
    pub value: u32,
}

// What is to be made: by which predictor, whether of Shorts, how many rows and cells, and which cell is asked for.
#[derive(Clone, Copy)]
pub struct Plan {
    pub predictor: u32,
    pub short: bool,
    pub rows: usize,
    pub cells: usize,
    pub inside: usize,
}

// Reads numbers from bit `start` on into a row, from column `from` to its end. A number whose code has no bit is also every number behind
// it: the tree is one leaf.
fn read_row(
    c: &[u8],
    nodes: &[u32],
    jumps: &[u32],
    start: usize,
    from: usize,
    row: &mut [u32],
) -> Option<usize>
    requires { from ≤ length row.old }
    ensures { (t : Tree) → Coded nodes.now jumps.now t → Lined (symbols t c.now) start from row.old row.new result }
{
    let mut pos = start;
    for i in from..row.len() {
        let number = number_at(c, nodes, jumps, pos)?;
        if number.at == pos {
            row[i..].fill(number.x);
            return Some(pos);
        }
        row[i] = number.x;
        pos = number.at;
    }
    Some(pos)
}

// Reads the numbers of a row from column `from` on, and makes its cells from the row above.
fn next_row(
    c: &[u8],
    nodes: &[u32],
    jumps: &[u32],
    plan: Plan,
    start: usize,
    from: usize,
    above: &[u32],
    row: &mut [u32],
) -> Option<Made>
    requires { (from ≤ length row.old) × (length row.old ≤ 4096) }
    ensures is { (t : Tree) → Coded nodes.now jumps.now t → Rowed (symbols t c.now) plan.predictor plan.short start from above.now row.old row.new result }
    ensures few { Few result }
{
    let pos = read_row(c, nodes, jumps, start, from, row)?;
    let bytes = m32::writing::codes_length(&row[from..]);
    predict::predict_row(plan.predictor, above, row);
    if in_range(plan.short, row) {
        return Some(Made { pos, bytes });
    }
    None
}

// Makes every row. The first column of `row` holds the seed, and `above` what stands above the first row.
fn unpack_rows(
    c: &[u8],
    nodes: &[u32],
    jumps: &[u32],
    plan: Plan,
    start: usize,
    above: &mut [u32],
    row: &mut [u32],
    out: &mut [u32],
) -> Option<Tile>
    requires sides { (1 ≤ plan.rows) × ((plan.rows ≤ 4096) × ((1 ≤ length row.old) × (length row.old ≤ 4096))) }
    requires shape { (length above.old ≡ length row.old) × ((plan.cells ≡ plan.rows * length row.old) × (plan.cells ≤ 16777216)) }
    ensures { (t : Tree) → Coded nodes.now jumps.now t → Tiled (symbols t c.now) plan.predictor plan.short start plan.rows plan.inside above.old row.old out.old out.new result }
{
    let mut at = 0;
    let mut from = 1;
    let mut pos = start;
    let mut bytes = 0;
    let mut value = 0;
    'rows: for _ in 0..plan.rows {
        let made = next_row(c, nodes, jumps, plan, pos, from, above, row)?;
        pos = made.pos;
        bytes += made.bytes;
        value = cell_or(value, at, plan.short, row, plan.inside);
        put_of_tile(out, plan.cells, at, plan.short, row);
        above.copy_from_slice(row);
        at += row.len();
        from = 0;
    }
    Some(Tile { bytes, value })
}

// The same by the nodes alone, with room for jumps, of which as many are made as there is room for.
fn rows_with(
    c: &[u8],
    nodes: &[u32],
    jumps: &mut [u32],
    plan: Plan,
    start: usize,
    above: &mut [u32],
    row: &mut [u32],
    out: &mut [u32],
) -> Option<Tile>
    requires few { length nodes.now ≤ most_nodes }
    requires sides { (1 ≤ plan.rows) × ((plan.rows ≤ 4096) × ((1 ≤ length row.old) × (length row.old ≤ 4096))) }
    requires shape { (length above.old ≡ length row.old) × ((plan.cells ≡ plan.rows * length row.old) × (plan.cells ≤ 16777216)) }
    ensures { (t : Tree) → Nodes nodes.now 0 t → Tiled (symbols t c.now) plan.predictor plan.short start plan.rows plan.inside above.old row.old out.old out.new result }
{
    huffman::jumps::make_jumps(nodes, jumps);
    unpack_rows(c, nodes, jumps, plan, start, above, row, out)
}

// And by the nodes alone. A tree of n + 1 leaves has 2 n + 1 nodes; the root has 256 jumps, and each node 16 behind them.
fn all_rows(
    c: &[u8],
    nodes: &[u32],
    plan: Plan,
    start: usize,
    above: &mut [u32],
    row: &mut [u32],
    out: &mut [u32],
) -> Option<Tile>
    requires few { length nodes.now ≤ most_nodes }
    requires sides { (1 ≤ plan.rows) × ((plan.rows ≤ 4096) × ((1 ≤ length row.old) × (length row.old ≤ 4096))) }
    requires shape { (length above.old ≡ length row.old) × ((plan.cells ≡ plan.rows * length row.old) × (plan.cells ≤ 16777216)) }
    ensures { (t : Tree) → Nodes nodes.now 0 t → Tiled (symbols t c.now) plan.predictor plan.short start plan.rows plan.inside above.old row.old out.old out.new result }
{
    let mut jumps = [0u32; 8432];
    let made = 272 + 32 * wire::byte_at(c, 10) as usize;
    rows_with(c, nodes, &mut jumps[..made], plan, start, above, row, out)
}

// Makes the cells of a tile whose head is right and whose tree stands in the nodes, in two rows that are lent. Where the content is
// malformed, what `out` then holds is free.
fn unpack_tile(
    c: &[u8],
    nodes: &[u32],
    start: usize,
    plan: Plan,
    above: &mut [u32],
    row: &mut [u32],
    out: &mut [u32],
) -> Option<u32>
    requires few { length nodes.now ≤ most_nodes }
    requires head { head_right c.now plan.rows (length row.old) ≡ true }
    requires shape { (length above.old ≡ length row.old) × ((plan.cells ≡ plan.rows * length row.old) × (plan.predictor ≡ predictor_of c.now)) }
    ensures { (t : Tree) → Nodes nodes.now 0 t → tree_in c.now ≡ got t start → tree_right c.now ≡ true → Answered (unpacked c.now plan.rows (length row.old) plan.short) plan.inside out.old out.new result }
{
    above.fill(0);
    row[0] = wire::u32_at(c, 2);
    let tile = all_rows(c, nodes, plan, start, above, row, out)?;
    let count = wire::u32_at(c, 6);
    if count_right(count, plan.cells - 1, tile.bytes) {
        return Some(tile.value);
    }
    None
}

// The cell with the number `inside` in the tile, and into `out` all of them, where the content is not malformed.
pub fn unpack_into(
    c: &[u8],
    rows: u32,
    columns: u32,
    short: bool,
    inside: usize,
    out: &mut [u32],
) -> Option<u32>
    ensures { Answered (unpacked c.now rows columns short) inside out.old out.new result }
{
    if !head_right(c, rows, columns) {
        return None;
    }
    let mut nodes = [0u32; 511];
    let start = read_root(c, &mut nodes)?;
    let width = columns as usize;
    let mut above = [0u32; 4096];
    let mut row = [0u32; 4096];
    let plan = Plan {
        predictor: wire::byte_at(c, 1),
        short,
        rows: rows as usize,
        cells: rows as usize * width,
        inside,
    };
    unpack_tile(
        c,
        &nodes,
        start,
        plan,
        &mut above[..width],
        &mut row[..width],
        out,
    )
}
