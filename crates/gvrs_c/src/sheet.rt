// Score sheets moved into pages, and pages out to score sheets.
ghost use Rattle.std.specs.Prelude.{◌≡◌, [], ◌∷◌, length};
ghost use Rattle.answer.specs.Answers.{laid_number, written};
ghost use Rattle.lay_down.specs.Sheet.{sheet_laid, sheet_file};
ghost use Rattle.sheets.specs.Back.{sheet_back, sheet_of};
ghost use Rattle.gvrs_c.specs.Report.{reported, laid_report};

use lay_down::sheet;

// Moves a score sheet into a page, with a front, at the time modified. The buffer holds the file and behind it what stood there, or is as
// it was.
#[unsafe(no_mangle)]
pub extern "C" fn gvrs_sheet_in(
    front: &[u8],
    time: u64,
    sheet: &[u8],
    file: &mut [u8],
    out: &mut [u64],
) -> u32
    ensures number { result ≡ laid_number (sheet_laid front.now time sheet.now (length file.old)) }
    ensures length { out.new ≡ reported (laid_report (sheet_laid front.now time sheet.now (length file.old)) ∷ []) out.old }
    ensures buffer { file.new ≡ written (sheet_laid front.now time sheet.now (length file.old)) (sheet_file front.now time sheet.now) file.old }
{
    let x = sheet::lay_down_sheet(front, time, sheet, file);
    crate::tell_laid(x, out)
}

// Moves a page out to a score sheet. The buffer holds the sheet and behind it what stood there, or is as it was; what `memory` holds
// afterwards is free.
#[unsafe(no_mangle)]
pub extern "C" fn gvrs_sheet_out(
    file: &[u8],
    compressor: u32,
    memory: &mut [u32],
    sheet: &mut [u8],
    out: &mut [u64],
) -> u32
    ensures number { result ≡ laid_number (sheet_back file.now compressor (length sheet.old)) }
    ensures length { out.new ≡ reported (laid_report (sheet_back file.now compressor (length sheet.old)) ∷ []) out.old }
    ensures buffer { sheet.new ≡ written (sheet_back file.now compressor (length sheet.old)) (sheet_of file.now compressor) sheet.old }
{
    let x = sheets::sheet_of(file, compressor, memory, sheet);
    crate::tell_laid(x, out)
}
