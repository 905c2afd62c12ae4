// A front from a description: the identification block and the header record that a lay-down takes (document 01, 'Laying down a page'),
// made from the page's sides, its elements and their texts.
//
// A description is judged by its numbers and texts first, as stages 3 and 4 would judge the front; then the front is written into the
// lent buffer, piece by piece. The writers have a `requires`: the description was judged, and what is written fits.
#![tactic(auto)]

mod body;
mod counts;
mod entries;
mod fixed;
mod judge;
mod sides;

ghost use Rattle.std.specs.Prelude.{◌≡◌, length};
ghost use Rattle.answer.specs.Answers.{written};
ghost use Rattle.fronts.specs.Front.{front_of};
ghost use Rattle.fronts.specs.Given.{described_by, front_verdict, front_made};

use answer::Refusal;

// Whether a description is refused, where its front goes into a buffer of so many bytes.
fn front_verdict(
    page: &[u32],
    uuid: &[u8],
    elements: &[u32],
    texts: &[u8],
    room: usize,
) -> Result<(), Refusal>
    ensures { result ≡ front_verdict page.now uuid.now elements.now texts.now room }
{
    if counts::is_describable(page, uuid, elements, texts) {
        if judge::header_told(page, elements, texts) {
            if judge::ceilings_told(page, elements) {
                if room < counts::front_length(page, elements) {
                    return Err(Refusal::Room);
                }
                return Ok(());
            }
            return Err(Refusal::Ceiling);
        }
        return Err(Refusal::Header);
    }
    Err(Refusal::Input)
}

// Makes a front. Of a page: grid rows, grid columns, tile rows, tile columns, checksums (1 on, 0 off), the bytes of the product label,
// then the bytes of each compression method's name. Of each element 14 numbers: type code, continuous, the bytes of its name, label,
// description and unit, then the eight of its range and fill block. The texts stand in the order of the file, without lengths: of each
// element name, label, description and unit; the methods' names; the product label.
pub fn make(
    page: &[u32],
    uuid: &[u8],
    elements: &[u32],
    texts: &[u8],
    front: &mut [u8],
) -> Result<usize, Refusal>
    ensures answer { result ≡ front_made page.now uuid.now elements.now texts.now (length front.old) }
    ensures buffer { front.new ≡ written (front_made page.now uuid.now elements.now texts.now (length front.old)) (front_of (described_by page.now uuid.now elements.now texts.now)) front.old }
{
    let room = front.len();
    match front_verdict(page, uuid, elements, texts, room) {
        Err(r) => Err(r),
        Ok(()) => {
            let n = counts::front_length(page, elements);
            body::put_whole(front, n, page, uuid, elements, texts);
            Ok(n)
        }
    }
}
