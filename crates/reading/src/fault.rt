// What can be wrong with a text: with a line by itself, or with a form where it stands.
ghost use Rattle.std.specs.Prelude.{◌≡◌};
ghost use Rattle.reading.specs.Faults.{form_refusal, form_stage};
ghost use Rattle.reading.specs.declared.fault.FormFault.TheVariants.{Line};

use lines::fault::LineFault;
use refusals::{Fault, Refusal};

#[derive(Clone, Copy, PartialEq, Eq, Debug)]
pub enum FormFault {
    Line(LineFault),
    // A part too many, a close too early or of nothing, the wrong line form for the word, a line after the outermost form, or a form open at the last line.
    Misplaced { line: usize },
    // One form too many, or too deep.
    TooLarge { line: usize },
    // The form is not of the kind that its place wants.
    WrongKind { line: usize },
}

// Which part of the work a fault comes from.
#[derive(Clone, Copy, PartialEq, Eq, Debug)]
pub enum Stage {
    Lines,
    Forms,
}

// By hand, since a derived `From` does not say which fault it makes.
impl From<LineFault> for FormFault {
    ghost from_gives = { λ e r. r ≡ Line e };

    fn from(fault: LineFault) -> FormFault {
        FormFault::Line(fault)
    }
}

impl Fault for FormFault {
    ghost told = { form_refusal };

    fn refusal(&self) -> Refusal {
        match *self {
            FormFault::Line(of_line) => of_line.refusal(),
            FormFault::Misplaced { line } => Refusal::new(8, line, 0),
            FormFault::TooLarge { line } => Refusal::new(9, line, 0),
            FormFault::WrongKind { line } => Refusal::new(10, line, 0),
        }
    }
}

impl FormFault {
    pub fn stage(&self) -> Stage
        ensures { result ≡ form_stage self.now }
    {
        match self {
            FormFault::Line(_) => Stage::Lines,
            _ => Stage::Forms,
        }
    }
}
