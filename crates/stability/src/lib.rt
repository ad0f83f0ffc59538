// How far the answer of a query can move from one plant to another. The check proves the law; a call does nothing.
#![tactic(auto)]

ghost use Rattle.stability.specs.Stable.{Stable};

// A typed query's value moves by no more than its sensitivities times the distances of the inputs.
pub fn answers_are_stable()
    ensures { Stable }
{}
