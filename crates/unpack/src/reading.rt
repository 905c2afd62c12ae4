// A number read from the bits of a content, by the nodes and the jumps of its tree.
ghost use Rattle.std.specs.Prelude.{◌≡◌};
ghost use Rattle.m32.specs.M32.{read_code};
ghost use Rattle.huffman.specs.Tree.{Tree};
ghost use Rattle.huffman.specs.Jumps.{Coded};
ghost use Rattle.unpack.specs.Unpack.{symbols};

use huffman::next_symbol;
use m32::{Found, Step};

// The number whose M32 code stands at bit `from`, if one does.
// Content, nodes and jumps stay apart: as one struct they make unpacking a fifth slower.
pub fn number_at(c: &[u8], nodes: &[u32], jumps: &[u32], from: usize) -> Option<Found>
    ensures { (t : Tree) → Coded nodes.now jumps.now t → result ≡ read_code (symbols t c.now) from }
{
    let symbol = next_symbol(c, nodes, jumps, from)?;
    let mut part = match m32::first(symbol.y) {
        Step::Number(x) => return Some(Found { x, at: symbol.pos }),
        Step::Bad => return None,
        Step::More(p) => p,
    };
    let mut at = symbol.pos;
    loop {
        let symbol = next_symbol(c, nodes, jumps, at)?;
        match m32::further(part, symbol.y) {
            Step::Number(x) => return Some(Found { x, at: symbol.pos }),
            Step::Bad => return None,
            Step::More(p) => part = p,
        }
        at = symbol.pos;
    }
}
