// The value of each of the 25 words, by example. The check computes them; a call does nothing.
#![tactic(auto)]

ghost use Rattle.query_cases.specs.Values.{Values};

pub fn words_have_their_values()
    ensures { Values }
{}
