// Why a file is refused, as numbers in `out`.
ghost use Rattle.std.specs.Prelude.{◌≡◌};
ghost use Rattle.explain.specs.Whole.{explained_of};
ghost use Rattle.gvrs_c.specs.Report.{reported};
ghost use Rattle.gvrs_c.specs.Explanation.{explained_number, explained_numbers};

use crate::description;
use explain::whole;
use reasons::Explanation;

fn explained_number(x: Result<(), Explanation>) -> u32
    ensures { result ≡ explained_number x }
{
    match x {
        Ok(()) => 0,
        Err(why) => answer::refusal_number(why.refusal),
    }
}

fn explained_numbers(x: Result<(), Explanation>) -> [u64; 6]
    ensures { result ≡ explained_numbers x }
{
    match x {
        Ok(()) => [0, 0, 0, 0, 0, 0],
        Err(why) => {
            let place = answer::refusal_place(why.refusal) as u64;
            let fault = why.fault;
            [
                place,
                fault.rule as u64,
                fault.index,
                fault.at,
                fault.found,
                fault.wanted,
            ]
        }
    }
}

// As gvrs_check, and why: out[0] takes the place, out[1] the rule, out[2] the number of what breaks it, out[3] the position of its field,
// out[4] what is found and out[5] what is wanted; zeros where the file is accepted.
#[unsafe(no_mangle)]
pub extern "C" fn gvrs_explain(file: &[u8], out: &mut [u64]) -> u32
    ensures number { result ≡ explained_number (explained_of file.now) }
    ensures told { out.new ≡ reported (explained_numbers (explained_of file.now)) out.old }
{
    let x = whole::explain(file);
    let numbers = explained_numbers(x);
    description::report_all(out, &numbers);
    explained_number(x)
}
