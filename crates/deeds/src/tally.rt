// What is counted over cells: the fills, whether every score is certain, and the lowest score.
ghost use Rattle.std.specs.Prelude.{◌≡◌, ◌+◌, ◌<◌, eqb};
ghost use Rattle.std.specs.Int.Signed.{le_z};
ghost use Rattle.wire.specs.Pick.{pick};
ghost use Rattle.wire.specs.Tests as tests;
ghost use Rattle.deeds.specs.Deeds as deeds;
ghost use Rattle.deeds.specs.Deeds.{is_stored};
ghost use Rattle.deeds.specs.Tallies.{fill_tally, join_tally, rank_of, low_rank, high_rank, no_cells, with_bits, with_cell, score_at, certain_from, run_tally};

use crate::Rule;
use answer::{Cell, Refusal};

#[derive(Clone, Copy)]
pub(crate) struct Tally {
    pub fills: u64,
    pub certain: bool,
    pub lowest: Option<i16>,
}

// n fill cells and no other.
pub(crate) fn of_fills(n: u64) -> Tally
    ensures { result ≡ fill_tally n }
{
    Tally {
        fills: n,
        certain: true,
        lowest: None,
    }
}

// A run of cells, counted in numbers alone, so that none costs a jump by its bits: the fills, and the ranks of the lowest and of the highest
// score, 65,536 and 0 where there is none.
#[derive(Clone, Copy)]
pub(crate) struct Run {
    pub fills: u64,
    pub low: u32,
    pub high: u32,
}

// No cell.
pub(crate) fn no_cells() -> Run
    ensures { result ≡ no_cells }
{
    Run {
        fills: 0,
        low: 65536,
        high: 0,
    }
}

// A score's place in the order of all, from 0 for -32,768 on, by its 16 bits; and back.
fn rank_of(b: u32) -> u32
    ensures is { result ≡ rank_of b }
    ensures small { result < 65536 }
{
    (b % 65536 + 32768) % 65536
}

// The rank of a score, as the lowest and as the highest; -1 is none.
fn low_rank(b: u32) -> u32
    ensures { result ≡ low_rank b }
{
    if b == 65535 {
        return 65536;
    }
    rank_of(b)
}

fn high_rank(b: u32) -> u32
    ensures { result ≡ high_rank b }
{
    if b == 65535 {
        return 0;
    }
    rank_of(b)
}

// 1 where two numbers are equal.
fn one_if(a: u32, b: u32) -> u64
    ensures is { result ≡ pick (eqb a b) 1 0 }
    ensures small { result < 2 }
{
    if a == b {
        return 1;
    }
    0
}

// A stored or unpacked cell more, by its 16 bits.
fn with_bits(t: Run, b: u32) -> Run
    requires { t.fills + 1 < 18446744073709551616 }
    ensures { result ≡ with_bits t b }
{
    let low = t.low;
    let high = t.high;
    Run {
        fills: t.fills + one_if(b, 65535),
        low: low.min(low_rank(b)),
        high: high.max(high_rank(b)),
    }
}

// Whether a cell is stored or unpacked.
fn is_stored(x: Result<Cell, Refusal>) -> bool
    ensures { result ≡ is_stored x }
{
    let kind = answer::cell_kind(x);
    if kind == 32 {
        return true;
    }
    kind == 34
}

// A cell more.
pub(crate) fn with_cell(t: Run, x: Result<Cell, Refusal>) -> Run
    requires { t.fills + 1 < 18446744073709551616 }
    ensures { result ≡ with_cell t x }
{
    if is_stored(x) {
        return with_bits(t, answer::cell_bits(x) % 65536);
    }
    let fills = t.fills + one_if(answer::cell_kind(x), 33);
    Run {
        fills,
        low: t.low,
        high: t.high,
    }
}

// The score of a rank.
fn score_at(n: u32) -> Option<i16>
    ensures { result ≡ score_at n }
{
    if n == 65536 {
        return None;
    }
    Some(answer::signed_16(rank_of(n) as u16))
}

fn both(a: bool, b: bool) -> bool
    ensures { result ≡ tests.both a b }
{
    if a {
        return b;
    }
    false
}

// Whether scores from one rank to another are from the mark to the scale.
fn certain_from(rule: Rule, low: u32, high: u32) -> bool
    ensures { result ≡ certain_from rule low high }
{
    let mark = rank_of(answer::bits_16(rule.mark) as u32);
    let scale = rank_of(answer::bits_16(rule.scale) as u32);
    let above = mark <= low;
    let below = high <= scale;
    both(above, below)
}

// What a run has counted.
pub(crate) fn of_run(rule: Rule, t: Run) -> Tally
    ensures { result ≡ run_tally rule t }
{
    let low = t.low;
    let high = t.high;
    Tally {
        fills: t.fills,
        certain: certain_from(rule, low, high),
        lowest: score_at(low),
    }
}

fn least(x: i16, y: i16) -> i16
    ensures { result ≡ pick (le_z x y) x y }
{
    if x <= y {
        return x;
    }
    y
}

// The lower of two scores, by their signed numbers.
fn lesser(a: Option<i16>, b: Option<i16>) -> Option<i16>
    ensures { result ≡ deeds.lesser a b }
{
    match a {
        None => b,
        Some(x) => match b {
            None => a,
            Some(y) => Some(least(x, y)),
        },
    }
}

// Two counts together.
pub(crate) fn join(a: Tally, b: Tally) -> Tally
    requires { a.fills + b.fills < 18446744073709551616 }
    ensures { result ≡ join_tally a b }
{
    let x = a.lowest;
    let y = b.lowest;
    Tally {
        fills: a.fills + b.fills,
        certain: both(a.certain, b.certain),
        lowest: lesser(x, y),
    }
}
