// The bits of a content, low-order first.
ghost use Rattle.std.specs.Prelude.{◌≡◌, ◌≤◌, ◌<◌};
ghost use Rattle.huffman.specs.Bits.{bit_at, octet_at, bits_in};

// The bit at a position, 2 past the end.
pub fn bit_at(c: &[u8], i: usize) -> u32
    ensures is { result ≡ bit_at c.now i }
    ensures small { result ≤ 2 }
    ensures near { result < 2 → i < bits_in }
{
    let j = i / 8;
    if c.len() <= j {
        return 2;
    }
    if 2147483647 <= j {
        return 2;
    }
    (c[j] as u32 >> (i % 8) as u32) % 2
}

// The eight bits from a position on, one by one.
fn octet_by_bits(c: &[u8], i: usize) -> u32
    ensures is { result ≡ octet_at c.now i }
    ensures small { result ≤ 256 }
{
    if 17179869176 <= i {
        return 256;
    }
    if bit_at(c, i + 7) == 2 {
        return 256;
    }
    let mut v = 0;
    for k in (0..8).rev() {
        v = bit_at(c, i + k) + 2 * v;
    }
    v
}

// The eight bits from a position on, the first of them lowest, 256 where one lies past the end. They lie in two bytes at most.
pub fn octet_at(c: &[u8], i: usize) -> u32
    ensures is { result ≡ octet_at c.now i }
    ensures small { result ≤ 256 }
{
    if 17179869160 <= i {
        return octet_by_bits(c, i);
    }
    let j = i / 8;
    if c.len() <= j + 1 {
        return octet_by_bits(c, i);
    }
    ((c[j] as u32 + 256 * c[j + 1] as u32) >> (i % 8) as u32) % 256
}
