// The table that spells a query's tree, and the evaluation of its terms, conditions, numbers and bags on plain values.
#![tactic(auto)]

pub mod bags;
pub mod form;
pub mod limits;
pub mod numbers;
pub mod route;
pub mod scope;
pub mod table;
pub mod terms;
#[cfg(test)]
mod tests;
