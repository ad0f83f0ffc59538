// The lines of a query's text: a line is split into tokens that borrow from the text, its word is looked up and its pieces are read as numbers.
#![tactic(auto)]

pub mod fault;
pub mod heading;
mod number;
pub mod split;
pub mod token;
