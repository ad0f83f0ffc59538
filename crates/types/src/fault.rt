// What the rules refuse.
ghost use Rattle.types.specs.Faults.{rule_refusal};

use refusals::{Fault, Refusal};

#[derive(Clone, Copy, PartialEq, Eq, Debug)]
pub enum RuleFault {
    // A source, setting, column or variable that is not there, bounds in the wrong order, or widths that differ.
    OutOfScope { line: usize },
    // A range past its bound.
    RangeTooWide { line: usize },
    // A sensitivity past its bound.
    TooSensitive { line: usize },
}

impl Fault for RuleFault {
    ghost told = { rule_refusal };

    fn refusal(&self) -> Refusal {
        let (number, line) = match *self {
            RuleFault::OutOfScope { line } => (11, line),
            RuleFault::RangeTooWide { line } => (12, line),
            RuleFault::TooSensitive { line } => (13, line),
        };
        Refusal::new(number, line, 0)
    }
}
