// What the rules give a number: its range, and how far it moves with each input and each variable in scope.
use crate::weights::Weights;
use rules::amounts::Amounts;
use sources::Range;

mod leaves;
mod words;

#[derive(Clone, Copy)]
pub struct TypedNumber {
    pub range: Range,
    pub inputs: Amounts,
    pub vars: Weights,
}
