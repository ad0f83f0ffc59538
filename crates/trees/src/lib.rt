// What a query is: forms of four kinds, each of one of 25 words. The tree, its meaning and its written form are in specs/.
#![tactic(auto)]

ghost use Rattle.std.specs.Prelude.{Some};
ghost use Rattle.trees.specs.Kinds.{printed};

use std::fmt;

pub mod laws;
pub mod words;

// What a form gives: a number from a row, a truth of a row, a list of rows, or a number.
#[derive(Clone, Copy, PartialEq, Eq, Debug)]
pub enum Kind {
    Term,
    Condition,
    Bag,
    Number,
}

impl fmt::Display for Kind {
    ghost output = { λ k. Some (printed k) };

    fn fmt<W: fmt::Write>(&self, f: &mut fmt::Formatter<W>) -> fmt::Result {
        f.pad(match self {
            Kind::Term => "term",
            Kind::Condition => "condition",
            Kind::Bag => "bag",
            Kind::Number => "number",
        })
    }
}
