// Why a file is refused: the first rule that it breaks, in the order of the check.
#![tactic(auto)]

pub mod head;
pub mod places;
pub mod rows;

use answer::Refusal;

// A rule that is broken: its code, the number of what breaks it, the position of the field, and what stands there and what it has to
// be, where these are numbers.
#[derive(Clone, Copy)]
pub struct Fault {
    pub rule: u32,
    pub index: u64,
    pub at: u64,
    pub found: u64,
    pub wanted: u64,
}

// What is said of a file that is refused: the refusal and the rule.
#[derive(Clone, Copy)]
pub struct Explanation {
    pub refusal: Refusal,
    pub fault: Fault,
}
