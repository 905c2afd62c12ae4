// Huffman codes: the bits of a content, the tree that is stored in them, and the symbols that the tree gives. The tree is held
// flat, a number a node: a leaf is its symbol, a branch 256 and the number of its right child; its left child is the next node.
#![tactic(auto)]

pub mod bits;
pub mod jumps;

ghost use Rattle.std.specs.Prelude.{◌≡◌, ◌+◌, ◌*◌, ◌≤◌, ◌<◌, length, take};
ghost use Rattle.wire.specs.Bytes.{zeros};
ghost use Rattle.huffman.specs.Tree.{tree_at};
ghost use Rattle.huffman.specs.Nodes.{Laid, Below, outcome, root_outcome, root_nodes, bit_by_bit, symbols_in};
ghost use Rattle.huffman.specs.Bits.{bits_in};
ghost use Rattle.huffman.specs.Jumps.{most_nodes, symbol_in, by_fours, next_symbol};
ghost use Rattle.huffman.specs.Symbols.{distinct};

use bits::{bit_at, octet_at};
use jumps::child;

// A tree that was read: the bit behind it, the node behind it, and how many of the symbols that it may have are left.
#[derive(Clone, Copy)]
pub struct Read {
    pub pos: usize,
    pub next: usize,
    pub left: u32,
}

// A symbol and the bit behind its code.
#[derive(Clone, Copy)]
pub struct Symbol {
    pub y: u8,
    pub pos: usize,
}

// Reads the tree at bit pos, of at most `left` leaves, into the nodes from `at` on.
fn read_tree(c: &[u8], pos: usize, left: u32, nodes: &mut [u32], at: usize) -> Option<Read>
    requires { (at + 2 * left ≤ 512) × (511 ≤ length nodes.old) }
    ensures is { result ≡ outcome at left (tree_at c.now left pos) }
    ensures holds { Laid nodes.old nodes.new at (tree_at c.now left pos) }
    ensures below { Below nodes.old nodes.new at }
{
    if left == 0 {
        return None;
    }
    let bit = bit_at(c, pos);
    if bit == 2 {
        return None;
    }
    if bit == 1 {
        let y = octet_at(c, pos + 1);
        if y == 256 {
            return None;
        }
        nodes[at] = y;
        return Some(Read {
            pos: pos + 9,
            next: at + 1,
            left: left - 1,
        });
    }
    let child = read_tree(c, pos + 1, left - 1, nodes, at + 1)?;
    nodes[at] = 256 + child.next as u32;
    read_tree(c, child.pos, child.left + 1, nodes, child.next)
}

// Reads the tree at bit pos, of at most `left` leaves. A tree of 256 leaves takes 511 nodes; where there are fewer, or more
// leaves are allowed, none is read and the nodes stay. Where no tree stands, they are made 0.
pub fn tree_of(c: &[u8], pos: usize, left: u32, nodes: &mut [u32]) -> Option<Read>
    ensures is { result ≡ root_outcome (length nodes.old) left (tree_at c.now left pos) }
    ensures holds { nodes.new ≡ root_nodes nodes.old left (tree_at c.now left pos) }
{
    if nodes.len() < 511 {
        return None;
    }
    if 256 < left {
        return None;
    }
    let Some(tree) = read_tree(c, pos, left, nodes, 0) else {
        nodes.fill(0);
        return None;
    };
    Some(tree)
}

// Whether no symbol stands twice among the first n nodes.
pub fn symbols_distinct(nodes: &[u32], n: usize) -> bool
    ensures { result ≡ distinct (symbols_in (take n nodes.now)) }
{
    let mut seen = [false; 256];
    for i in 0..n.min(nodes.len()) {
        let node = nodes[i] as usize;
        if 256 <= node {
            continue;
        }
        if seen[node] {
            return false;
        }
        seen[node] = true;
    }
    true
}

// The symbol whose code stands at bit `from`, bit by bit from a node on.
fn by_bits(c: &[u8], nodes: &[u32], start: usize, from: usize) -> Option<Symbol>
    ensures { result ≡ bit_by_bit c.now nodes.now start from }
{
    let mut pos = from;
    let mut i = start;
    loop {
        if nodes.len() <= i {
            return None;
        }
        let node = nodes[i];
        if node < 256 {
            return Some(Symbol { y: node as u8, pos });
        }
        let bit = bit_at(c, pos);
        if bit == 2 {
            return None;
        }
        i = child(i, node, bit);
        pos += 1;
    }
}

// The symbol that a jump from bit pos leads to, and the bit behind its code.
fn symbol_of(jump: u32, pos: usize) -> Option<Symbol>
    requires { (512 ≤ jump) × (pos < bits_in) }
    ensures { result ≡ symbol_in jump pos }
{
    Some(Symbol {
        y: (jump % 256) as u8,
        pos: pos + (jump / 512) as usize - 1,
    })
}

// The same as by bits, four at a step while there is a jump.
fn by_fours(c: &[u8], nodes: &[u32], jumps: &[u32], start: usize, from: usize) -> Option<Symbol>
    requires { start < most_nodes }
    ensures { result ≡ by_fours c.now nodes.now jumps.now start from }
{
    let mut pos = from;
    let mut i = start;
    loop {
        let octet = octet_at(c, pos);
        if octet == 256 {
            return by_bits(c, nodes, i, pos);
        }
        let j = 256 + 16 * i + (octet % 16) as usize;
        if jumps.len() <= j {
            return by_bits(c, nodes, i, pos);
        }
        let jump = jumps[j];
        if 512 <= jump {
            return symbol_of(jump, pos);
        }
        i = jump as usize;
        pos += 4;
    }
}

// The symbol whose code stands at bit `from`, by the nodes of a tree and as many of its jumps as there are.
// The three slices stay apart: as one struct they make unpacking a fifth slower.
pub fn next_symbol(c: &[u8], nodes: &[u32], jumps: &[u32], from: usize) -> Option<Symbol>
    ensures { result ≡ next_symbol c.now nodes.now jumps.now from }
{
    let first = octet_at(c, from);
    if first == 256 {
        return by_bits(c, nodes, 0, from);
    }
    if jumps.len() <= first as usize {
        return by_bits(c, nodes, 0, from);
    }
    let jump = jumps[first as usize];
    if 512 <= jump {
        return symbol_of(jump, from);
    }
    by_fours(c, nodes, jumps, jump as usize, from + 8)
}
