// G Table 5: descriptive strings, valid UTF-8 by RFC 3629.
ghost use Rattle.std.specs.Prelude.{◌≡◌};
ghost use Rattle.header.specs.Element.{entry_start};
ghost use Rattle.header.specs.Texts.{text_right, entry_texts};

use crate::entries;

// Whether the string at a position is UTF-8; of one that does not lie whole in the file there are no bytes to judge.
pub fn text_right(s: &[u8], at: usize) -> bool
    ensures { result ≡ text_right s.now at }
{
    if s.len() <= at {
        return true;
    }
    let n = wire::u16_at(s, at) as usize;
    utf8::is_utf8(wire::part_of(s, at + 2, n))
}

// Whether the label, the description and the unit of element e are UTF-8.
pub fn element_texts(s: &[u8], e: usize) -> bool
    ensures { result ≡ entry_texts s.now (entry_start s.now e) }
{
    let label = entries::label_at(s, entries::entry_start(s, e));
    if text_right(s, label) {
        let description = entries::string_end(s, label);
        if text_right(s, description) {
            return text_right(s, entries::string_end(s, description));
        }
    }
    false
}
