// The upper ends of rounds, chosen by samples of all metadata records. No contract rests on the choice.
ghost use Rattle.std.specs.Prelude.{◌≤◌};

use crate::ranked::{self, Ranked};
use crate::rounds::{self, ROUND};
use record::{Cursor, Step, chain};

// How many records are sorted at a time, to take samples of them.
const BLOCK: usize = 4096;

// One record of so many is a sample, and one sample of so many is an upper end.
const SAMPLE: usize = 32;

const STRIDE: usize = 620;

// The most upper ends.
pub const ENDS: usize = 32;

// The most samples, and the most records that they are taken of: there is no room for more samples behind a block.
const SAMPLES: usize = 18432;

const SAMPLED: usize = SAMPLES * SAMPLE;

// The records of a block in order, and the last of each 32 behind the samples of so many blocks before.
fn sample_block(s: &[u8], block: &mut [Ranked], samples: &mut [Ranked], before: usize)
    requires { before ≤ 144 }
{
    ranked::order(s, block, ranked::WORDS);
    let free = samples.iter_mut().skip(before * (BLOCK / SAMPLE));
    for (sample, part) in free.zip(block.chunks_exact(SAMPLE)) {
        if let Some(last) = part.last() {
            *sample = *last;
        }
    }
}

// All metadata records, in blocks, as far as there is room for samples; how many they are. The last block is not full, and not yet sampled.
fn sample_all(s: &[u8], block: &mut [Ranked], samples: &mut [Ranked]) -> usize
    ensures { result ≤ 589824 }
{
    let mut m = 0;
    let mut c = Cursor {
        at: chain::header_end(s),
    };
    loop {
        let Step::Record {
            kind,
            start,
            length: _,
            next,
        } = c.step(s)
        else {
            return m;
        };
        if kind == record::METADATA {
            if rounds::keep(block, m % BLOCK, start) == Some(BLOCK) {
                sample_block(s, block, samples, m / BLOCK);
            }
            m += 1;
            if m == SAMPLED {
                return m;
            }
        }
        c = next;
    }
}

// Upper ends of rounds: where every 620th of the samples starts. Behind the last there is none.
pub(crate) fn find_ends(s: &[u8], a: &mut [Ranked; ROUND]) -> [Option<usize>; ENDS] {
    let (block, samples) = a.split_at_mut(BLOCK);
    let m = sample_all(s, block, samples);
    sample_block(s, &mut block[..m % BLOCK], samples, m / BLOCK);
    let sorted = &mut samples[..m / SAMPLE];
    ranked::order(s, sorted, ranked::WORDS);
    let mut ends = [None; ENDS];
    for (end, part) in ends.iter_mut().zip(sorted.chunks_exact(STRIDE)) {
        *end = part.last().map(|record| record.start());
    }
    ends
}
