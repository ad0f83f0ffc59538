// The rules of a query: what each form may be, how large its values get, and how far they move with each input.
// The rules themselves are definitions, in specs/Typing.antt.
#![tactic(auto)]

pub mod amounts;
pub mod catalogue;
pub mod laws;
pub mod ranges;
