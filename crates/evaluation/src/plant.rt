// What a query is asked of, and why a plant does not fit a catalogue.
ghost use Rattle.evaluation.specs.Plants.{plant_refusal};

use refusals::{Fault, Refusal};

// Two sources of any kinds, lent, and two settings.
#[derive(Drop)]
pub struct Plant<'a, A, B> {
    pub first: &'a A,
    pub second: &'a B,
    pub settings: [i64; 2],
}

#[derive(Clone, Copy, PartialEq, Eq, Debug)]
pub enum PlantFault {
    // The source has not the width, the limit or the column ranges of its shape.
    Shape { source: usize },
    // The setting lies outside its range.
    Setting { setting: usize },
}

impl Fault for PlantFault {
    ghost told = { plant_refusal };

    fn refusal(&self) -> Refusal {
        match *self {
            PlantFault::Shape { source } => Refusal::new(24, source, 0),
            PlantFault::Setting { setting } => Refusal::new(25, setting, 0),
        }
    }
}
