// Why a text is not accepted: the call, the catalogue, the text's size, or what reading or the rules refuse.
ghost use Rattle.std.specs.Prelude.{◌≡◌};
ghost use Rattle.checking.specs.Faults.{check_refusal, check_stage, of_reading};
ghost use Rattle.checking.specs.declared.fault.CheckFault.TheVariants.{Form, Rule};

use reading::fault::{FormFault, Stage};
use refusals::{Fault, Refusal};
use types::fault::RuleFault;

#[derive(Clone, Copy, PartialEq, Eq, Debug)]
pub enum CheckFault {
    // Fewer places for notes than a query can have forms.
    FewNotes,
    // The catalogue is faulty at this input.
    Catalogue { input: usize },
    // More bytes than a text may have.
    TooLong,
    // No bytes.
    NoText,
    Form(FormFault),
    Rule(RuleFault),
}

// Which part of the work a fault comes from.
#[derive(Clone, Copy, PartialEq, Eq, Debug)]
pub enum CheckStage {
    Call,
    Lines,
    Forms,
    Rules,
}

impl From<Stage> for CheckStage {
    ghost from_gives = { λ s r. r ≡ of_reading s };

    fn from(stage: Stage) -> CheckStage {
        match stage {
            Stage::Lines => CheckStage::Lines,
            Stage::Forms => CheckStage::Forms,
        }
    }
}

// By hand, since a derived `From` does not say which fault it makes.
impl From<FormFault> for CheckFault {
    ghost from_gives = { λ e r. r ≡ Form e };

    fn from(fault: FormFault) -> CheckFault {
        CheckFault::Form(fault)
    }
}

impl From<RuleFault> for CheckFault {
    ghost from_gives = { λ e r. r ≡ Rule e };

    fn from(fault: RuleFault) -> CheckFault {
        CheckFault::Rule(fault)
    }
}

impl Fault for CheckFault {
    ghost told = { check_refusal };

    fn refusal(&self) -> Refusal {
        match *self {
            CheckFault::FewNotes => Refusal::new(1, 0, 0),
            CheckFault::Catalogue { input } => Refusal::new(2, input, 0),
            CheckFault::TooLong => Refusal::new(3, 0, 0),
            CheckFault::NoText => Refusal::new(4, 0, 0),
            CheckFault::Form(fault) => fault.refusal(),
            CheckFault::Rule(fault) => fault.refusal(),
        }
    }
}

impl CheckFault {
    pub fn stage(&self) -> CheckStage
        ensures { result ≡ check_stage self.now }
    {
        match self {
            CheckFault::Form(fault) => CheckStage::from(fault.stage()),
            CheckFault::Rule(_) => CheckStage::Rules,
            _ => CheckStage::Call,
        }
    }
}
