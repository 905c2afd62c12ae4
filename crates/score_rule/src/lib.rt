// The score rule that a page says, by its metadata records named `score_rule`.
#![tactic(auto)]

ghost use Rattle.std.specs.Prelude.{◌≡◌, Ok};
ghost use Rattle.store.specs.Face.{check, name_said};
ghost use Rattle.score_rule.specs.Rules.{score_rule, said_by, page_says};

use store::named;
use store::named::NamedIds;

// The first rule, the second, or neither: the records under the name contradict themselves or name another.
#[derive(Clone, Copy)]
pub enum Said {
    First,
    Second,
    Wrong,
}

// What is said of the name, as a rule.
pub fn rule_of(x: NamedIds) -> Said
    ensures { result ≡ said_by x }
{
    match x {
        NamedIds::Absent => Said::First,
        NamedIds::One(id) => {
            if id == 1 {
                return Said::First;
            }
            if id == 2 {
                return Said::Second;
            }
            Said::Wrong
        }
        NamedIds::Several => Said::Wrong,
    }
}

// The rule that a page says. It makes no check, and goes over the records once at most.
pub fn page_says(file: &[u8]) -> Said
    ensures is { result ≡ said_by (name_said file.now score_rule) }
    ensures accepted { check file.now ≡ Ok tt → result ≡ page_says file.now }
{
    rule_of(named::name_said(file, b"score_rule"))
}
