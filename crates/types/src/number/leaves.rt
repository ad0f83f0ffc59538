// The numbers that stand alone: settings, variables, and what is counted or summed over a bag.
ghost use Rattle.std.specs.Prelude.{◌≡◌, ◌+◌, ◌≤◌, max, true, length, int_le, unsigned_abs};
ghost use Rattle.rules.specs.Amounts.{at_most, one_at, times as multiplied};
ghost use Rattle.rules.specs.Catalogue.{setting_range};
ghost use Rattle.rules.specs.Ranges.{counts, most_rows, totals};
ghost use Rattle.rules.specs.Typing.{index, place, scope_rule, sensitivity_bound, settle, unbound, variable};
ghost use Rattle.trees.specs.Size.{max_depth, literal_bound};
ghost use Rattle.types.specs.Faults.{told};
ghost use Rattle.stacks.specs.declared.stack.Stack.{Stack};
ghost use Rattle.stacks.specs.Stack.{spare, stacked};
ghost use Rattle.types.specs.Shown.{number_shown};

use super::TypedNumber;
use crate::bag::TypedBag;
use crate::fault::RuleFault;
use crate::place::place_in_scope;
use crate::variables::Variables;
use crate::weights::Weights;
use rules::amounts::Amounts;
use rules::catalogue::Catalogue;
use rules::ranges::{counts, totals};
use sources::Range;

impl TypedNumber {
    // A number that moves with no variable.
    pub fn unbound(range: Range, inputs: Amounts) -> TypedNumber
        ensures { (v : Stack Range max_depth) → number_shown (spare v) result ≡ unbound (stacked v) range inputs }
    {
        TypedNumber {
            range,
            inputs,
            vars: Weights::none(),
        }
    }

    pub fn of_setting(
        catalogue: &Catalogue,
        setting: i64,
        line: usize,
    ) -> Result<TypedNumber, RuleFault>
        ensures { (v : Stack Range max_depth) → told (number_shown (spare v)) result ≡ settle (scope_rule line (place 2 setting)) (unbound (stacked v) (setting_range catalogue.now (index setting)) (one_at (2 + index setting))) }
    {
        let k = place_in_scope(setting, 2, line)?;
        Ok(TypedNumber::unbound(catalogue.settings[k], Amounts::one_at(2 + k)))
    }

    // A variable in scope, 0 the innermost.
    pub fn of_variable(scope: &Variables, at: i64, line: usize) -> Result<TypedNumber, RuleFault>
        ensures { told (number_shown (spare scope.now)) result ≡ settle (scope_rule line (place (length (stacked scope.now)) at)) (variable (stacked scope.now) (index at)) }
    {
        let i = place_in_scope(at, scope.len(), line)?;
        Ok(TypedNumber {
            range: scope.as_slice()[i],
            inputs: Amounts::NONE,
            vars: Weights::one_at(i, scope),
        })
    }

    // How many rows a bag has.
    pub fn of_count(bag: &TypedBag) -> TypedNumber
        requires { bag.now.shape.limit ≤ most_rows }
        ensures { (v : Stack Range max_depth) → number_shown (spare v) result ≡ unbound (stacked v) (counts bag.now.shape.limit) bag.now.inputs }
    {
        TypedNumber::unbound(counts(bag.shape.limit), bag.inputs)
    }

    // What the rows of a bag add up to, each with a value clipped to the bounds. A row more or less moves it by the greater bound.
    pub fn of_sum(
        low: i64,
        high: i64,
        bag: &TypedBag,
        line: usize,
    ) -> Result<TypedNumber, RuleFault>
        requires rows { bag.now.shape.limit ≤ most_rows }
        requires low { unsigned_abs low ≤ literal_bound }
        requires high { unsigned_abs high ≤ literal_bound }
        requires small { at_most sensitivity_bound bag.now.inputs ≡ true }
        ensures { (v : Stack Range max_depth) → told (number_shown (spare v)) result ≡ settle (scope_rule line (int_le low high)) (unbound (stacked v) (totals bag.now.shape.limit low high) (multiplied (max (unsigned_abs low) (unsigned_abs high)) bag.now.inputs)) }
    {
        if low > high {
            return Err(RuleFault::OutOfScope { line });
        }
        let most = low.unsigned_abs().max(high.unsigned_abs());
        Ok(TypedNumber::unbound(totals(bag.shape.limit, low, high), bag.inputs.times(most)))
    }
}
