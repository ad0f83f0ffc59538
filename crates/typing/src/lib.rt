// The forms of a query are typed by the rules, and noted: each gets its range and its sensitivities, or the first refusal stands.
#![tactic(auto)]

mod bags;
mod basis;
pub mod note;
pub mod numbers;
mod terms;
