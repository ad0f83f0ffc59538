// What a count or a sum adds for the rows of its bag, on plain rows.
ghost use Rattle.std.specs.Prelude.{◌≡◌};
ghost use Rattle.evaluation.specs.Addends.{CalmAddend, added, tally_of};

use forms::form::{Entry, Form};
use forms::limits::CELLS;
use forms::numbers::clip;
use forms::terms::eval_term;

// What is added for each row: 1, or the value of the term at a position, clipped. An Option would not say that it is 1.
#[derive(Clone, Copy)]
pub enum Addend {
    One,
    Clipped { low: i64, high: i64, term: usize },
}

// A count or a sum: the position of its bag, and what it adds for each row.
#[derive(Clone, Copy)]
pub struct Tally {
    pub bag: usize,
    pub addend: Addend,
}

// What a form adds up, if it is a count or a sum.
pub fn tally_of(form: Form) -> Option<Tally>
    ensures { result ≡ tally_of form }
{
    match form {
        Form::Count { bag } => Some(Tally {
            bag,
            addend: Addend::One,
        }),
        Form::Sum {
            low,
            high,
            bag,
            term,
        } => Some(Tally {
            bag,
            addend: Addend::Clipped { low, high, term },
        }),
        _ => None,
    }
}

pub fn added(entries: &[Entry], addend: Addend, row: &[i64; CELLS]) -> i64
    requires { CalmAddend entries.now addend row.now }
    ensures { result ≡ added entries.now addend row.now }
{
    match addend {
        Addend::One => 1,
        Addend::Clipped { low, high, term } => clip(low, high, eval_term(entries, term, row)),
    }
}
