// An open page squeezed by a plan of new starts.
ghost use Rattle.std.specs.Prelude.{◌≡◌, [], ◌∷◌};
ghost use Rattle.answer.specs.Answers.{laid_number};
ghost use Rattle.correct.specs.Calls.{Call, change_of, answer_by, out_by, stopped_by, made_by};
ghost use Rattle.plans.specs.Tight.{tight_answer, tight_count, tight_out};
ghost use Rattle.gvrs_c.specs.Report.{reported, laid_report};

use crate::correction;

// What squeezing by a plan would answer.
#[unsafe(no_mangle)]
pub extern "C" fn gvrs_check_plan(file: &[u8], n: u64, plan: &[u64], out: &mut [u64]) -> u32
    ensures number { result ≡ laid_number (answer_by (change_of (Call.Squeezing plan.now) file.now n)) }
    ensures length { out.new ≡ reported (laid_report (answer_by (change_of (Call.Squeezing plan.now) file.now n)) ∷ []) out.old }
{
    let x = squeeze::check_plan(file, n as usize, plan);
    crate::tell_laid(x, out)
}

// The plan that slides every record against the one before it; out[1] takes how many starts there are.
#[unsafe(no_mangle)]
pub extern "C" fn gvrs_tight_plan(file: &[u8], n: u64, plan: &mut [u64], out: &mut [u64]) -> u32
    ensures number { result ≡ laid_number (tight_answer file.now n plan.old) }
    ensures numbers { out.new ≡ reported (laid_report (tight_answer file.now n plan.old) ∷ tight_count file.now n ∷ []) out.old }
    ensures plan { plan.new ≡ tight_out file.now n plan.old }
{
    let x = squeeze::tight_plan(file, n as usize, plan);
    let answer = x.answer;
    crate::tell_laid_and(answer, x.starts, out)
}

// Squeezes the open page. The plan holds the same numbers afterwards.
#[unsafe(no_mangle)]
pub extern "C" fn gvrs_squeeze(file: &mut [u8], n: u64, plan: &mut [u64], out: &mut [u64]) -> u32
    ensures number { result ≡ laid_number (answer_by (change_of (Call.Squeezing plan.old) file.old n)) }
    ensures length { out.new ≡ reported (laid_report (answer_by (change_of (Call.Squeezing plan.old) file.old n)) ∷ []) out.old }
    ensures buffer { file.new ≡ out_by (change_of (Call.Squeezing plan.old) file.old n) file.old }
    ensures plan { plan.new ≡ plan.old }
{
    let x = squeeze::squeeze_page(file, n as usize, plan);
    crate::tell_laid(x, out)
}

// Squeezes the page, and stops after a number of byte stores into its buffer.
#[unsafe(no_mangle)]
pub extern "C" fn gvrs_squeeze_stopped(
    file: &mut [u8],
    n: u64,
    plan: &mut [u64],
    stores: u64,
    out: &mut [u64],
) -> u32
    ensures number { result ≡ laid_number (answer_by (change_of (Call.Squeezing plan.old) file.old n)) }
    ensures numbers { out.new ≡ reported (laid_report (answer_by (change_of (Call.Squeezing plan.old) file.old n)) ∷ made_by stores (change_of (Call.Squeezing plan.old) file.old n) ∷ []) out.old }
    ensures buffer { file.new ≡ stopped_by stores (change_of (Call.Squeezing plan.old) file.old n) file.old }
    ensures plan { plan.new ≡ plan.old }
{
    let x = squeeze::squeeze_page_stopped(file, n as usize, plan, stores as usize);
    correction::tell_stopped(x, out)
}
