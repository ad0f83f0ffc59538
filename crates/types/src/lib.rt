// What the rules give bags and numbers, and what each word makes of it; and the faults of the rules.
#![tactic(auto)]

pub mod bag;
pub mod fault;
pub mod limits;
pub mod number;
pub mod place;
pub mod variables;
pub mod weights;
