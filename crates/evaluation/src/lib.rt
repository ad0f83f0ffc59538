// A query's table of forms, evaluated on any plant that fits the catalogue of the query.
#![tactic(auto)]

mod addends;
mod asked;
mod evaluation;
mod fitting;
mod laws;
mod plant;
mod rows;
mod totals;

pub use evaluation::evaluate;
pub use fitting::fit;
pub use laws::lined_tables_spell_their_number;
pub use plant::{Plant, PlantFault};

#[cfg(test)]
mod tests;
