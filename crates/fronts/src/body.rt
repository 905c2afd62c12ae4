// The whole front, put into a lent buffer: what stands behind the entries, the header's body, its head and its end. All have a
// `requires`: the description was judged, and what is written fits.
ghost use Rattle.std.specs.Prelude.{◌≡◌, true, ◌+◌, ◌-◌, ◌/◌, ◌≤◌, length};
ghost use Rattle.wire.specs.Bytes.{put};
ghost use Rattle.fronts.specs.Front.{body_of, front_of};
ghost use Rattle.fronts.specs.Given.{described_by, describable};
ghost use Rattle.fronts.specs.Writing.{MethodsReady, methods_bytes, end_bytes, EndReady};

use crate::{counts, entries, fixed};
use wire::writing;
use written_records::pieces;

const HEADER: u8 = record::HEADER as u8;

// The names of the first n compression methods, whose bytes stand among the texts from a place on.
fn put_methods(
    out: &mut [u8],
    at: usize,
    page: &[u32],
    n: usize,
    texts: &[u8],
    from: usize,
) -> usize
    requires { MethodsReady page.now texts.now from n × (at + length (methods_bytes page.now texts.now from n) ≤ length out.old) }
    ensures end { result ≡ at + length (methods_bytes page.now texts.now from n) }
    ensures holds { out.new ≡ put out.old at (methods_bytes page.now texts.now from n) }
{
    let mut p = at;
    let mut start = from;
    for i in 0..n {
        let k = wire::number_in(page, 6 + i) as usize;
        entries::put_string(out, p, wire::part_of(texts, start, k));
        p += 2 + k;
        start += k;
    }
    p
}

// What stands behind the entries: the number of methods, their names, the product label, eight reserved bytes.
fn put_end(out: &mut [u8], at: usize, page: &[u32], texts: &[u8], from: usize) -> usize
    requires { EndReady page.now texts.now from × (at + length (end_bytes page.now texts.now from) ≤ length out.old) }
    ensures end { result ≡ at + length (end_bytes page.now texts.now from) }
    ensures holds { out.new ≡ put out.old at (end_bytes page.now texts.now from) }
{
    let n = page.len() - 6;
    let start = from + counts::methods_before(page, n);
    let long = wire::number_in(page, 5) as usize;
    let label = wire::part_of(texts, start, long);
    writing::put_u32(out, at, n as u32);
    let p = put_methods(out, at + 4, page, n, texts, from);
    entries::put_string(out, p, label);
    writing::put_zeros(out, p + (2 + long), 8);
    p + (2 + long) + 8
}

// The header's body, behind the identification block and the header's head.
fn put_body(out: &mut [u8], page: &[u32], uuid: &[u8], elements: &[u32], texts: &[u8]) -> usize
    requires { (describable page.now uuid.now elements.now texts.now ≡ true) × (24 + length (body_of (described_by page.now uuid.now elements.now texts.now)) ≤ length out.old) }
    ensures end { result ≡ 24 + length (body_of (described_by page.now uuid.now elements.now texts.now)) }
    ensures holds { out.new ≡ put out.old 24 (body_of (described_by page.now uuid.now elements.now texts.now)) }
{
    let n = elements.len() / 14;
    let from = counts::texts_before(elements, n);
    fixed::put_numbers(out, page, uuid, n);
    let p = entries::put_entries(out, 284, elements, n, texts);
    put_end(out, p, page, texts, from)
}

// The front, n bytes long.
pub(crate) fn put_whole(
    out: &mut [u8],
    n: usize,
    page: &[u32],
    uuid: &[u8],
    elements: &[u32],
    texts: &[u8],
)
    requires { (describable page.now uuid.now elements.now texts.now ≡ true) × ((n ≡ length (front_of (described_by page.now uuid.now elements.now texts.now))) × (n ≤ length out.old)) }
    ensures { out.new ≡ put out.old 0 (front_of (described_by page.now uuid.now elements.now texts.now)) }
{
    let flag = entries::code_of(wire::number_in(page, 4));
    fixed::put_mark(out);
    pieces::put_head(out, 16, (n - 16) as u32, HEADER);
    let end = put_body(out, page, uuid, elements, texts);
    pieces::close(out, 16, end, n - 16, flag as u32);
}
