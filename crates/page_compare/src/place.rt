// The list of what differs, filled a row of tiles after the other. The rows of one are counted first, so that it is known where each row's
// entries start; then its pieces are taken from left to right, and each row's entries go where those of the last piece ended.
ghost use Rattle.std.specs.Prelude.{◌≡◌, ℕ, ◌+◌, ◌-◌, ◌*◌, ◌/◌, ◌≤◌, ◌<◌, min, length, get_or, set};
ghost use Rattle.wire.specs.Bytes.{put};
ghost use Rattle.wire.specs.Lists.{one_if, count_below};
ghost use Rattle.store.specs.Face.{tile_columns, AtPiece, band_end};
ghost use Rattle.row_lists.specs.Entries.{entry, entry_size, entry_numbers, count_in, differing_in, listed};
ghost use Rattle.row_lists.specs.Placing.{Cut, cap_of, numbers_if, numbers_at, stretch, next_of, Nexts, Ends, PiecePlaced, BandPlaced, SpreadOut};
ghost use Rattle.comparisons.specs.declared.Halt.TheVariants as halt;
ghost use Rattle.page_compare.specs.Sides.{area_differ, area_tiling, row_tiling, area_halt_in, Both, BothReady, mark_width, marked};

use crate::count::{Plain, Seen};
use crate::sides::Side;
use crate::{Pair, count, marks, sides};
use store::many::Rectangle;
use store::pieces::Piece;
use store::{description, pieces};

// The numbers of an entry: row, column, element, tile, number inside the tile.
const ENTRY: usize = 5;

fn put_number(v: u32, i: usize, list: &mut [u32])
    requires { i < length list.old }
    ensures { list.new ≡ set list.old i v }
{
    list[i] = v;
}

// The k-th entry, for which there is room.
fn put_entry(r: u64, c: u64, e: u64, tile: u64, inside: u64, k: u64, list: &mut [u32])
    requires r_bound { (r < 65536) × ((c < 65536) × ((e < 65536) × ((tile < 4294967296) × (inside < 4294967296)))) }
    requires room { k < length list.old / entry_size }
    ensures { Cut (cap_of list.old) (k * entry_size) (entry_numbers (entry r c e) tile inside) list.old list.new }
{
    let at = k as usize * ENTRY;
    put_number(r as u32, at, list);
    put_number(c as u32, at + 1, list);
    put_number(e as u32, at + 2, list);
    put_number(tile as u32, at + 3, list);
    put_number(inside as u32, at + 4, list);
}

// That of an element, if it has a mark and there is room: where the next one goes. The columns from `left` on lie in a tile, with the
// numbers from `start` on.
fn place_element(
    marks: &[u8],
    tile: u64,
    start: u64,
    left: u64,
    r: u64,
    c: u64,
    e: u64,
    k: u64,
    list: &mut [u32],
) -> u64
    requires r_bound { (r < 65536) × ((c < 65536) × ((left ≤ c) × (e < mark_width))) }
    requires marks { (c - left) * mark_width + e < length marks.now }
    requires small { (tile < 4294967296) × (start < 16777216) }
    requires room { k ≤ length list.old / entry_size }
    ensures next { result ≡ min (length list.old / entry_size) (k + one_if (marked marks.now left r c e)) }
    ensures list { Cut (cap_of list.old) (k * entry_size) (numbers_if (row_tiling tile start left) (marked marks.now left r c e) r c e) list.old list.new }
{
    let room = (list.len() / ENTRY) as u64;
    let i = ((c - left) * 16 + e) as usize;
    if marks::is_mark(marks, i) {
        if k < room {
            put_entry(r, c, e, tile, start + (c - left), k, list);
            return k + 1;
        }
        return k;
    }
    k
}

// The entries of a cell, from the k-th on: where the next one goes.
fn place_cell(
    marks: &[u8],
    elements: u64,
    tile: u64,
    start: u64,
    left: u64,
    r: u64,
    c: u64,
    k: u64,
    list: &mut [u32],
) -> u64
    requires r_bound { (r < 65536) × ((c < 65536) × ((left ≤ c) × (elements ≤ mark_width))) }
    requires marks { (c - left) * mark_width + mark_width ≤ length marks.now }
    requires small { (tile < 4294967296) × (start < 16777216) }
    requires room { k ≤ length list.old / entry_size }
    ensures next { result ≡ min (length list.old / entry_size) (k + count_below elements (marked marks.now left r c)) }
    ensures list { Cut (cap_of list.old) (k * entry_size) (numbers_at (row_tiling tile start left) (marked marks.now left) elements r c) list.old list.new }
{
    let mut next = k;
    let mut e = 0;
    while e < elements {
        next = place_element(marks, tile, start, left, r, c, e, next, list);
        e += 1;
    }
    next
}

// The entries of a row's stretch, from the k-th on: where the row's next one goes. It lies in a tile, with the numbers from `start` on.
fn place_row(
    marks: &[u8],
    elements: u64,
    tile: u64,
    start: u64,
    r: u64,
    left: u64,
    right: u64,
    k: u64,
    list: &mut [u32],
) -> u64
    requires r_bound { (r < 65536) × ((left ≤ right) × ((right ≤ 65536) × (elements ≤ mark_width))) }
    requires marks { (right - left) * mark_width ≤ length marks.now }
    requires small { (tile < 4294967296) × (start < 16777216) }
    requires room { k ≤ length list.old / entry_size }
    ensures next { result ≡ min (length list.old / entry_size) (k + count_in (marked marks.now left) elements r (r + 1) left right) }
    ensures list { Cut (cap_of list.old) (k * entry_size) (stretch (numbers_at (row_tiling tile start left) (marked marks.now left) elements) r left right) list.old list.new }
{
    let mut next = k;
    let mut c = left;
    while c < right {
        next = place_cell(marks, elements, tile, start, left, r, c, next, list);
        c += 1;
    }
    next
}

// A row of a piece, where its next entry is the k-th: where the one behind the piece goes. Where the row's entries end there already, or
// the list does, no cell is looked at.
fn place_stretch(
    first: &[u8],
    second: &[u8],
    q: Pair,
    memory: &[u32],
    a: Rectangle,
    p: Piece,
    start: u64,
    r: u64,
    xs: [Side; 16],
    ys: [Side; 16],
    end: u64,
    k: u64,
    marks: &mut [u8],
    list: &mut [u32],
) -> u64
    requires both { Both first.now second.now q a }
    requires at { AtPiece first.now a p }
    requires row { ((p.top ≤ r) × (r < p.bottom)) × (start ≡ p.inside + (r - p.top) * tile_columns first.now) }
    requires ready { BothReady first.now second.now q a p xs ys memory.now }
    requires room { (p.right - p.left) * mark_width ≤ length marks.old }
    requires next { (k ≡ min (length list.old / entry_size) (next_of (area_differ first.now second.now q a) q.elements a.columns r p.left)) × (end ≡ min (length list.old / entry_size) (next_of (area_differ first.now second.now q a) q.elements a.columns r a.columns)) }
    ensures next { result ≡ min (length list.old / entry_size) (next_of (area_differ first.now second.now q a) q.elements a.columns r p.right) }
    ensures list { Cut (cap_of list.old) (next_of (area_differ first.now second.now q a) q.elements a.columns r p.left * entry_size) (stretch (numbers_at (area_tiling first.now a) (area_differ first.now second.now q a) q.elements) r p.left p.right) list.old list.new }
{
    if end <= k {
        return k;
    }
    marks::mark_row(first, second, q, memory, a, p, start, r, xs, ys, marks);
    place_row(
        marks, q.elements, p.tile, start, r, p.left, p.right, k, list,
    )
}

// The rows of a piece. `next` has where the next entry of each row goes, and `ends` where its last one ends.
fn place_rows(
    first: &[u8],
    second: &[u8],
    q: Pair,
    memory: &[u32],
    a: Rectangle,
    p: Piece,
    xs: [Side; 16],
    ys: [Side; 16],
    ends: &[u64],
    marks: &mut [u8],
    next: &mut [u64],
    list: &mut [u32],
)
    requires both { Both first.now second.now q a }
    requires at { AtPiece first.now a p }
    requires ready { BothReady first.now second.now q a p xs ys memory.now }
    requires room { ((p.right - p.left) * mark_width ≤ length marks.old) × ((p.bottom ≤ p.top + length next.old) × (p.bottom ≤ p.top + length ends.now)) }
    requires ends { Ends (area_differ first.now second.now q a) q.elements a.columns (length list.old / entry_size) p.top p.bottom ends.now }
    requires next { Nexts (area_differ first.now second.now q a) q.elements a.columns (length list.old / entry_size) p.top p.bottom p.top p.left p.right next.old }
    ensures next { Nexts (area_differ first.now second.now q a) q.elements a.columns (length list.old / entry_size) p.top p.bottom p.bottom p.left p.right next.new }
    ensures list { PiecePlaced (area_tiling first.now a) (area_differ first.now second.now q a) q.elements a.columns p.top p.bottom p.bottom p.left p.right list.old list.new }
{
    let shape = description::shape_of(first);
    let across = shape.tile_columns as u64;
    let mut r = p.top;
    while r < p.bottom {
        let i = (r - p.top) as usize;
        let start = p.inside + (r - p.top) * across;
        let k = next[i];
        let end = ends[i];
        let after = place_stretch(
            first, second, q, memory, a, p, start, r, xs, ys, end, k, marks, list,
        );
        next[i] = after;
        r += 1;
    }
}

// A piece whose cells can be read: where none differs, no row is looked at.
fn place_piece(
    first: &[u8],
    second: &[u8],
    q: Pair,
    memory: &[u32],
    a: Rectangle,
    p: Piece,
    xs: [Side; 16],
    ys: [Side; 16],
    ends: &[u64],
    marks: &mut [u8],
    next: &mut [u64],
    list: &mut [u32],
)
    requires both { Both first.now second.now q a }
    requires at { AtPiece first.now a p × AtPiece second.now a p }
    requires ready { BothReady first.now second.now q a p xs ys memory.now }
    requires room { ((p.right - p.left) * mark_width ≤ length marks.old) × ((p.bottom ≤ p.top + length next.old) × (p.bottom ≤ p.top + length ends.now)) }
    requires ends { Ends (area_differ first.now second.now q a) q.elements a.columns (length list.old / entry_size) p.top p.bottom ends.now }
    requires next { Nexts (area_differ first.now second.now q a) q.elements a.columns (length list.old / entry_size) p.top p.bottom p.top p.left p.right next.old }
    ensures next { Nexts (area_differ first.now second.now q a) q.elements a.columns (length list.old / entry_size) p.top p.bottom p.bottom p.left p.right next.new }
    ensures list { PiecePlaced (area_tiling first.now a) (area_differ first.now second.now q a) q.elements a.columns p.top p.bottom p.bottom p.left p.right list.old list.new }
{
    if let Plain::Same(n) = count::plain_piece(first, second, q, memory, a, p, xs, ys) {
        if n == 0 {
            return;
        }
    }
    place_rows(
        first, second, q, memory, a, p, xs, ys, ends, marks, next, list,
    );
}

// A piece, by what is held of its tile in both pages.
fn place_tile(
    first: &[u8],
    second: &[u8],
    q: Pair,
    memory: &mut [u32],
    a: Rectangle,
    p: Piece,
    cells: u64,
    ends: &[u64],
    marks: &mut [u8],
    next: &mut [u64],
    list: &mut [u32],
)
    requires both { Both first.now second.now q a }
    requires at { AtPiece first.now a p }
    requires cells { cells ≤ 16777216 }
    requires room { ((p.right - p.left) * mark_width ≤ length marks.old) × ((p.bottom ≤ p.top + length next.old) × (p.bottom ≤ p.top + length ends.now)) }
    requires ends { Ends (area_differ first.now second.now q a) q.elements a.columns (length list.old / entry_size) p.top p.bottom ends.now }
    requires next { Nexts (area_differ first.now second.now q a) q.elements a.columns (length list.old / entry_size) p.top p.bottom p.top p.left p.right next.old }
    ensures next { Nexts (area_differ first.now second.now q a) q.elements a.columns (length list.old / entry_size) p.top p.bottom p.bottom p.left p.right next.new }
    ensures list { PiecePlaced (area_tiling first.now a) (area_differ first.now second.now q a) q.elements a.columns p.top p.bottom p.bottom p.left p.right list.old list.new }
{
    let half = memory.len() / 2;
    let end = memory.len();
    let n = q.elements;
    let xs = sides::hold_page(first, q.first, a, p, n, cells, memory, 0, half);
    let ys = sides::hold_page(second, q.second, a, p, n, cells, memory, half, end);
    place_piece(
        first, second, q, memory, a, p, xs, ys, ends, marks, next, list,
    );
}

// The pieces of the row of tiles that starts at row `top`.
fn place_band(
    first: &[u8],
    second: &[u8],
    q: Pair,
    memory: &mut [u32],
    a: Rectangle,
    top: u64,
    bottom: u64,
    ends: &[u64],
    marks: &mut [u8],
    next: &mut [u64],
    list: &mut [u32],
)
    requires both { Both first.now second.now q a }
    requires band { (top < a.rows) × (bottom ≡ band_end first.now a top) }
    requires room { (65536 ≤ length marks.old) × ((4096 ≤ length next.old) × (4096 ≤ length ends.now)) }
    requires ends { Ends (area_differ first.now second.now q a) q.elements a.columns (length list.old / entry_size) top bottom ends.now }
    requires next { Nexts (area_differ first.now second.now q a) q.elements a.columns (length list.old / entry_size) top bottom top 0 0 next.old }
    ensures { BandPlaced (area_tiling first.now a) (area_differ first.now second.now q a) q.elements a.columns top bottom list.old list.new }
{
    let shape = description::shape_of(first);
    let cells = shape.tile_rows as u64 * (shape.tile_columns as u64);
    let mut p = pieces::first_piece(first, a, top);
    while p.top < bottom {
        place_tile(
            first, second, q, memory, a, p, cells, ends, marks, next, list,
        );
        p = pieces::next_piece(first, a, p);
    }
}

fn lesser(x: u64, y: u64) -> u64
    ensures { result ≡ min x y }
{
    if x <= y {
        return x;
    }
    y
}

// The counts of n rows become the places of their first entries, and `ends` where their last ones end, `from` entries standing before them;
// none behind the list's end, which has room for so many.
fn spread(n: u64, from: u64, room: u64, counts: &mut [u64], ends: &mut [u64])
    requires n_bound { (n ≤ 4096) × ((n ≤ length counts.old) × (n ≤ length ends.old)) }
    requires small { (from ≤ 1099511627776) × ((i : ℕ) → i < n → get_or counts.old i 0 ≤ 1048576) }
    ensures { SpreadOut n from room counts.old counts.new ends.new }
{
    let mut at = from;
    let mut i = 0;
    while i < n {
        let k = i as usize;
        let count = counts[k];
        counts[k] = lesser(room, at);
        at += count;
        ends[k] = lesser(room, at);
        i += 1;
    }
}

// A row of tiles, before which so many entries stand: how many it has.
fn list_band(
    first: &[u8],
    second: &[u8],
    q: Pair,
    memory: &mut [u32],
    a: Rectangle,
    top: u64,
    bottom: u64,
    from: u64,
    marks: &mut [u8],
    counts: &mut [u64],
    ends: &mut [u64],
    list: &mut [u32],
) -> u64
    requires both { Both first.now second.now q a }
    requires band { (top < a.rows) × (bottom ≡ band_end first.now a top) }
    requires room { (65536 ≤ length marks.old) × ((4096 ≤ length counts.old) × (4096 ≤ length ends.old)) }
    requires read { area_halt_in first.now second.now q a top bottom 0 a.columns ≡ halt.None }
    requires from { (from ≡ count_in (area_differ first.now second.now q a) q.elements 0 top 0 a.columns) × (from ≤ 1099511627776) }
    ensures count { result ≡ count_in (area_differ first.now second.now q a) q.elements top bottom 0 a.columns }
    ensures list { BandPlaced (area_tiling first.now a) (area_differ first.now second.now q a) q.elements a.columns top bottom list.old list.new }
{
    match count::count_band(first, second, q, memory, a, top, bottom, marks, counts) {
        Seen::Halted(_) => 0,
        Seen::Cells(n) => {
            if n == 0 {
                return 0;
            }
            let room = (list.len() / ENTRY) as u64;
            spread(bottom - top, from, room, counts, ends);
            place_band(
                first, second, q, memory, a, top, bottom, ends, marks, counts, list,
            );
            n
        }
    }
}

// All rows of tiles, until as many entries are listed as there are, or the list is full.
pub(crate) fn list_all(
    first: &[u8],
    second: &[u8],
    q: Pair,
    memory: &mut [u32],
    a: Rectangle,
    total: u64,
    marks: &mut [u8],
    counts: &mut [u64],
    list: &mut [u32],
)
    requires both { Both first.now second.now q a }
    requires room { (65536 ≤ length marks.old) × (4096 ≤ length counts.old) }
    requires read { area_halt_in first.now second.now q a 0 a.rows 0 a.columns ≡ halt.None }
    requires total { total ≡ count_in (area_differ first.now second.now q a) q.elements 0 a.rows 0 a.columns }
    ensures { list.new ≡ put list.old 0 (listed (area_tiling first.now a) (length list.old) (differing_in (area_differ first.now second.now q a) q.elements 0 a.rows 0 a.columns)) }
{
    let mut ends = [0u64; 4096];
    let room = (list.len() / ENTRY) as u64;
    let mut done = 0;
    let mut top = 0;
    while top < a.rows {
        if total <= done {
            return;
        }
        if room <= done {
            return;
        }
        let bottom = pieces::band_end(first, a, top);
        done += list_band(
            first, second, q, memory, a, top, bottom, done, marks, counts, &mut ends, list,
        );
        top = bottom;
    }
}
