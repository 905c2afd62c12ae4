// M32 codes: a 32-bit number in one to six bytes. A number is passed as the u32 of its bits.
#![tactic(auto)]

pub mod writing;

ghost use Rattle.std.specs.Prelude.{◌≡◌, get_or, length};
ghost use Rattle.wire.specs.Bytes.{put};
ghost use Rattle.m32.specs.M32.{bases, first_step, go_on, ended, further_step, bytes_next, read_code, read_codes};

// What the bytes of a magnitude have given so far: its sign, how many they are, and the number of their seven bits each.
#[derive(Clone, Copy)]
pub struct Partial {
    pub negative: bool,
    pub digits: u32,
    pub sum: u32,
}

// What a byte of a code gives: the number, a byte more to ask for, or that it is no code.
#[derive(Clone, Copy)]
pub enum Step {
    Number(u32),
    More(Partial),
    Bad,
}

// The number of a code and the position behind it.
#[derive(Clone, Copy)]
pub struct Found {
    pub x: u32,
    pub at: usize,
}

// How many numbers were read, and how many bytes their codes take.
#[derive(Clone, Copy)]
pub struct Taken {
    pub numbers: usize,
    pub bytes: usize,
}

// What a magnitude is less that has so many bytes and one.
pub fn base(digits: u32) -> u32
    ensures { result ≡ get_or bases digits 0 }
{
    match digits {
        0 => 127,
        1 => 255,
        2 => 16639,
        3 => 2113791,
        4 => 270549247,
        _ => 0,
    }
}

// The first byte of a code. A byte that is itself the number is widened without a branch, since its sign is as good as random.
pub fn first(b: u8) -> Step
    ensures { result ≡ first_step b }
{
    if b == 127 {
        return Step::More(Partial {
            negative: false,
            digits: 0,
            sum: 0,
        });
    }
    if b == 128 {
        return Step::Number(2147483648);
    }
    if b == 129 {
        return Step::More(Partial {
            negative: true,
            digits: 0,
            sum: 0,
        });
    }
    Step::Number((((b as u64 + 128) % 256 + 4294967168) % 4294967296) as u32)
}

// A byte that another follows: v is the number of the seven bits of each up to it.
fn go_on(p: Partial, v: u64) -> Step
    ensures { result ≡ go_on p v }
{
    if 3 < p.digits {
        return Step::Bad;
    }
    if 2147483647 < v {
        return Step::Bad;
    }
    Step::More(Partial {
        negative: p.negative,
        digits: p.digits + 1,
        sum: v as u32,
    })
}

// The last byte.
fn ended(p: Partial, v: u64) -> Step
    ensures { result ≡ ended p v }
{
    if 4 < p.digits {
        return Step::Bad;
    }
    if 2147483647 < v {
        return Step::Bad;
    }
    let m = v + base(p.digits) as u64;
    if 2147483647 < m {
        return Step::Bad;
    }
    if p.negative {
        return Step::Number((4294967296 - m) as u32);
    }
    Step::Number(m as u32)
}

// A further byte of a code.
pub fn further(p: Partial, b: u8) -> Step
    ensures { result ≡ further_step p b }
{
    let sum = p.sum as u64 * 128;
    if 128 <= b {
        return go_on(p, sum + (b - 128) as u64);
    }
    ended(p, sum + b as u64)
}

// The code that stands at a position, if one does.
pub fn code_at(bytes: &[u8], from: usize) -> Option<Found>
    ensures { result ≡ read_code (bytes_next bytes.now) from }
{
    let mut part = match first(*bytes.get(from)?) {
        Step::Number(x) => return Some(Found { x, at: from + 1 }),
        Step::Bad => return None,
        Step::More(p) => p,
    };
    for at in from + 1..bytes.len() {
        match further(part, bytes[at]) {
            Step::Number(x) => return Some(Found { x, at: at + 1 }),
            Step::Bad => return None,
            Step::More(p) => part = p,
        }
    }
    None
}

// Reads as many whole codes as stand at the start of the bytes and as `out` has room for.
pub fn read(bytes: &[u8], out: &mut [u32]) -> Taken
    ensures count { result.numbers ≡ length (read_codes (bytes_next bytes.now) (length out.old) 0).numbers }
    ensures taken { result.bytes ≡ (read_codes (bytes_next bytes.now) (length out.old) 0).behind }
    ensures holds { out.new ≡ put out.old 0 (read_codes (bytes_next bytes.now) (length out.old) 0).numbers }
{
    let mut at = 0;
    for (i, number) in out.iter_mut().enumerate() {
        let Some(found) = code_at(bytes, at) else {
            return Taken {
                numbers: i,
                bytes: at,
            };
        };
        *number = found.x;
        at = found.at;
    }
    Taken {
        numbers: out.len(),
        bytes: at,
    }
}
