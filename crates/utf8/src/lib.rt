// RFC 3629, section 4: whether bytes are UTF-8.
#![tactic(auto)]

ghost use Rattle.std.specs.Prelude.{◌≡◌, List, ◌∷◌, ℕ};
ghost use Rattle.utf8.specs.Utf8.{rows, following, goes_on, utf8};
ghost use Rattle.utf8.specs.inner.Wanted.{wanted};

// No str::from_utf8: its contract is in the words of std, so this table would have to be proved to be the same grammar.
// How many bytes are still wanted, and the lowest and the highest that the next may be.
#[derive(Clone, Copy)]
struct Wanted(u32, u32, u32);

// What has to follow a byte that begins a character; of any other byte, a range that no byte is in.
fn lead(b: u32) -> Wanted
    ensures { wanted result ≡ following b rows }
{
    if b < 0x80 {
        return Wanted(0, 0x80, 0xBF);
    }
    match b {
        0xC2..=0xDF => Wanted(1, 0x80, 0xBF),
        0xE0 => Wanted(2, 0xA0, 0xBF),
        0xE1..=0xEC => Wanted(2, 0x80, 0xBF),
        0xED => Wanted(2, 0x80, 0x9F),
        0xEE..=0xEF => Wanted(2, 0x80, 0xBF),
        0xF0 => Wanted(3, 0x90, 0xBF),
        0xF1..=0xF3 => Wanted(3, 0x80, 0xBF),
        0xF4 => Wanted(3, 0x80, 0x8F),
        _ => Wanted(1, 1, 0),
    }
}

// What is wanted behind one byte more.
fn step(w: Wanted, b: u32) -> Wanted
    ensures { (bs : List ℕ) → goes_on (wanted result) bs ≡ goes_on (wanted w) (b ∷ bs) }
{
    let left = w.0;
    if left == 0 {
        return lead(b);
    }
    if b < w.1 {
        return Wanted(1, 1, 0);
    }
    if w.2 < b {
        return Wanted(1, 1, 0);
    }
    Wanted(left - 1, 0x80, 0xBF)
}

// Whether bytes are UTF-8.
pub fn is_utf8(text: &[u8]) -> bool
    ensures { result ≡ utf8 text.now }
{
    let mut w = Wanted(0, 0x80, 0xBF);
    for b in text {
        w = step(w, u32::from(*b));
    }
    w.0 == 0
}
