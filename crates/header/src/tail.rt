// G Table 7, behind the element entries.
ghost use Rattle.std.specs.Prelude.{◌≡◌, ◌+◌, ◌≤◌, length};
ghost use Rattle.header.specs.Tail.{methods_at, method_count, product_label_at, fields_end};
ghost use Rattle.header.specs.Element.{longest_entry};

use crate::{entries, fields};

// Where the number of compression methods stands.
fn methods_at(s: &[u8]) -> usize
    ensures is { result ≡ methods_at s.now }
    ensures near { result ≤ length s.now + longest_entry }
{
    entries::entry_start(s, fields::element_count(s) as usize)
}

// The number of compression methods.
pub fn method_count(s: &[u8]) -> u32
    ensures { result ≡ method_count s.now }
{
    wire::u32_at(s, methods_at(s))
}

// Where the product label stands; no method name is read that starts past the start of the header's last four bytes.
pub fn product_label_at(s: &[u8]) -> usize
    ensures is { result ≡ product_label_at s.now }
    ensures near { result ≤ length s.now + longest_entry + 4 }
{
    let limit = fields::header_limit(s);
    let mut at = methods_at(s) + 4;
    for _ in 0..method_count(s) {
        if limit < at {
            break;
        }
        at += entries::string_size(s, at);
    }
    at
}

// Behind the last field, the eight reserved bytes.
pub fn fields_end(s: &[u8]) -> usize
    ensures { result ≡ fields_end s.now }
{
    let at = product_label_at(s);
    at + entries::string_size(s, at) + 8
}
