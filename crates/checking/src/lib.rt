// A query text is checked against a catalogue: it fills a query and a table of notes, or is refused.
#![tactic(auto)]

mod call;
pub mod check;
pub mod fault;
pub mod query;
