// A front from a description.
ghost use Rattle.std.specs.Prelude.{◌≡◌, [], ◌∷◌, length};
ghost use Rattle.answer.specs.Answers.{laid_number, written};
ghost use Rattle.fronts.specs.Front.{front_of};
ghost use Rattle.fronts.specs.Given.{described_by, front_made};
ghost use Rattle.gvrs_c.specs.Report.{reported, laid_report};

use fronts;

// Makes a front. The buffer holds it and behind it what stood there, or is as it was.
#[unsafe(no_mangle)]
pub extern "C" fn gvrs_front(
    page: &[u32],
    uuid: &[u8],
    elements: &[u32],
    texts: &[u8],
    front: &mut [u8],
    out: &mut [u64],
) -> u32
    ensures number { result ≡ laid_number (front_made page.now uuid.now elements.now texts.now (length front.old)) }
    ensures length { out.new ≡ reported (laid_report (front_made page.now uuid.now elements.now texts.now (length front.old)) ∷ []) out.old }
    ensures buffer { front.new ≡ written (front_made page.now uuid.now elements.now texts.now (length front.old)) (front_of (described_by page.now uuid.now elements.now texts.now)) front.old }
{
    let x = fronts::make(page, uuid, elements, texts, front);
    crate::tell_laid(x, out)
}
