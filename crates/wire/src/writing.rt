// Bytes put into a lent buffer. Writing is total: what does not fit whole is not written.
ghost use Rattle.std.specs.Prelude.{◌≡◌, [], ◌∷◌};
ghost use Rattle.wire.specs.Bytes.{bytes_of, put, zeros};

// One byte.
pub fn put_byte(out: &mut [u8], at: usize, v: u8)
    ensures { out.new ≡ put out.old at (v ∷ []) }
{
    if at < out.len() {
        out[at] = v;
    }
}

// The four bytes of a number, lowest first.
pub fn put_u32(out: &mut [u8], at: usize, v: u32)
    ensures { out.new ≡ put out.old at (bytes_of 4 v) }
{
    put_bytes(out, at, &v.to_le_bytes());
}

// The eight bytes of a number.
pub fn put_u64(out: &mut [u8], at: usize, v: u64)
    ensures { out.new ≡ put out.old at (bytes_of 8 v) }
{
    put_bytes(out, at, &v.to_le_bytes());
}

// A whole slice.
pub fn put_bytes(out: &mut [u8], at: usize, src: &[u8])
    ensures { out.new ≡ put out.old at src.now }
{
    if out.len() < src.len() {
        return;
    }
    if out.len() - src.len() < at {
        return;
    }
    out[at..at + src.len()].copy_from_slice(src);
}

// Zeros: padding and reserved fields.
pub fn put_zeros(out: &mut [u8], at: usize, n: usize)
    ensures { out.new ≡ put out.old at (zeros n) }
{
    if out.len() < n {
        return;
    }
    if out.len() - n < at {
        return;
    }
    out[at..at + n].fill(0);
}
