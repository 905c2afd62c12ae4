// Jumps: where several bits at once lead from a node. They are made once for a tree, and a walk then takes four or eight bits at a step.
ghost use Rattle.std.specs.Prelude.{◌≡◌, ◌≤◌, ◌<◌, length, get_or};
ghost use Rattle.huffman.specs.Nodes.{child_of};
ghost use Rattle.huffman.specs.Jumps.{most_nodes, walked, jump_of, jumps_of};

// The child of a branch: the bit 0 goes left, to the next node.
pub(crate) fn child(i: usize, node: u32, bit: u32) -> usize
    requires { (i < 9223372036854775808) × (256 ≤ node) }
    ensures { result ≡ child_of i node bit }
{
    if bit == 0 {
        return i + 1;
    }
    (node - 256) as usize
}

// Where k bits lead from a node.
fn walk(nodes: &[u32], k: u32, from: usize, bits: u32) -> u32
    requires { (k ≤ 8) × (from ≤ most_nodes) }
    ensures { result ≡ walked nodes.now k 0 from bits }
{
    let mut i = from;
    let mut v = bits;
    for u in 0..k {
        let node = wire::number_in(nodes, i);
        if node < 256 {
            return 512 * (u + 1) + node;
        }
        i = child(i, node, v % 2);
        v /= 2;
    }
    let node = wire::number_in(nodes, i);
    if node < 256 {
        return 512 * (k + 1) + node;
    }
    i as u32
}

// The jump with a number.
fn jump_of(nodes: &[u32], j: usize) -> u32
    ensures { result ≡ jump_of nodes.now j }
{
    if 8448 <= j {
        return 0;
    }
    if 256 <= j {
        let behind = j - 256;
        return walk(nodes, 4, behind / 16, (behind % 16) as u32);
    }
    walk(nodes, 8, 0, j as u32)
}

// Makes as many jumps as there is room for. The root has 256, and each node 16 behind them.
pub fn make_jumps(nodes: &[u32], jumps: &mut [u32])
    ensures { jumps.new ≡ jumps_of nodes.now (length jumps.old) }
{
    for (j, jump) in jumps.iter_mut().enumerate() {
        *jump = jump_of(nodes, j);
    }
}
