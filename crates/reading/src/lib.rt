// A query's text is read into a table of forms, or refused with a number and a line.
#![tactic(auto)]

mod decide;
pub mod fault;
mod frame;
mod progress;
pub mod text;
