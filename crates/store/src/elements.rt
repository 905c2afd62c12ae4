// Elements by their names, on any bytes: nothing is checked here.
ghost use Rattle.std.specs.Prelude.{◌≡◌};
ghost use Rattle.store.specs.Lookup.{has_name, element_named, lookup_of};

use answer::Refusal;
use header::{entries, fields, names};

// Whether element e has the name.
fn has_name(file: &[u8], e: usize, name: &[u8]) -> bool
    ensures { result ≡ has_name file.now name.now e }
{
    let x = entries::element(file, e);
    let n = name.len();
    names::same_name(file, x.name, x.name_length, name, 0, n)
}

// The first element that has it.
pub(crate) fn first_named(file: &[u8], name: &[u8]) -> Result<Option<usize>, Refusal>
    ensures { result ≡ lookup_of (element_named file.now name.now) }
{
    let n = fields::element_count(file) as usize;
    for e in 0..n {
        if has_name(file, e, name) {
            return Ok(Some(e));
        }
    }
    Ok(None)
}
