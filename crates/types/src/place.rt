// A place that a form names: a source, a setting, a column or a variable.
ghost use Rattle.std.specs.Prelude.{◌≡◌, ◌<◌, true, false, MatchOption, MatchResult};
ghost use Rattle.rules.specs.Typing.{index, place};

use crate::fault::RuleFault;

// The place, if it is one of so many.
pub fn place(at: i64, places: usize) -> Option<usize>
    ensures { MatchOption result (place places at ≡ false) (λ i. (place places at ≡ true) × (i ≡ index at) × (i < places)) }
{
    usize::try_from(at).ok().filter(|i| *i < places)
}

// The place, or the fault of the form that opens at the line.
pub fn place_in_scope(at: i64, places: usize, line: usize) -> Result<usize, RuleFault>
    ensures { MatchResult result (λ i. (place places at ≡ true) × (i ≡ index at) × (i < places)) (λ e. (place places at ≡ false) × (e ≡ RuleFault.OutOfScope line)) }
{
    place(at, places).ok_or(RuleFault::OutOfScope { line })
}
