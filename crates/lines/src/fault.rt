// What can be wrong with a line by itself.
ghost use Rattle.lines.specs.Faults.{line_refusal};

use refusals::{Fault, Refusal};

#[derive(Clone, Copy, PartialEq, Eq, Debug)]
pub enum LineFault {
    // Neither `)` alone nor `(`, a word, pieces and perhaps `)`.
    NotALine { line: usize },
    // The word is unknown, or has another count of numbers.
    NotAHeading { line: usize },
    // A piece is not a number within the bound.
    NotANumber { line: usize },
}

impl Fault for LineFault {
    ghost told = { line_refusal };

    fn refusal(&self) -> Refusal {
        let (number, first) = match *self {
            LineFault::NotALine { line } => (5, line),
            LineFault::NotAHeading { line } => (6, line),
            LineFault::NotANumber { line } => (7, line),
        };
        Refusal::new(number, first, 0)
    }
}
