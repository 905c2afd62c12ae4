// The head of a content, its tree, and its count field.
ghost use Rattle.std.specs.Prelude.{◌≡◌, List, ℕ, ◌≤◌, length};
ghost use Rattle.m32.specs.M32.{codes};
ghost use Rattle.unpack.specs.Unpack.{head_right, count_right};
ghost use Rattle.unpack.specs.Steps.{Rooted};

// Whether the sides are those of a tile, and the head is whole and names a predictor.
pub fn head_right(c: &[u8], rows: u32, columns: u32) -> bool
    ensures { result ≡ head_right c.now rows columns }
{
    if rows < 1 {
        return false;
    }
    if 4096 < rows {
        return false;
    }
    if columns < 1 {
        return false;
    }
    if 4096 < columns {
        return false;
    }
    if c.len() < 11 {
        return false;
    }
    wire::byte_at(c, 1) <= 2
}

// Reads the tree into 511 nodes, and gives the bit behind it, if it has the leaves that the head tells and no symbol twice.
pub fn read_root(c: &[u8], nodes: &mut [u32]) -> Option<usize>
    ensures { 511 ≤ length nodes.old → Rooted c.now nodes.new result }
{
    let count = wire::byte_at(c, 10) + 1;
    let tree = huffman::tree_of(c, 88, count, nodes)?;
    if tree.left != 0 {
        return None;
    }
    if huffman::symbols_distinct(nodes, tree.next) {
        return Some(tree.pos);
    }
    None
}

// Whether the count field is the number of numbers or of their bytes.
pub fn count_right(count: u32, n: usize, bytes: usize) -> bool
    ensures { (xs : List ℕ) → bytes ≡ length (codes xs) → result ≡ count_right count n xs }
{
    if count as usize == n {
        return true;
    }
    count as usize == bytes
}
