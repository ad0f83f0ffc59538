// Sensitivities at the variables in scope.
ghost use Rattle.std.specs.Prelude.{◌≡◌, ℕ, ◌-◌, ◌<◌, ◌≤◌, true, length, drop, replicate, if◌then◌else◌, nat_eq, slice_index};
ghost use Rattle.rules.specs.Amounts.{all_added, all_at_most, all_times};
ghost use Rattle.rules.specs.Typing.{sensitivity_bound};
ghost use Rattle.sources.specs.Indexed.{listed};
ghost use Rattle.sources.specs.declared.shapes.Range.{Range};
ghost use Rattle.trees.specs.Size.{max_depth};
ghost use Rattle.stacks.specs.declared.stack.Stack.{Stack};
ghost use Rattle.stacks.specs.Stack.{spare, stacked};

use super::Weights;
use crate::limits::MAX_VARS;
use crate::variables::Variables;
use std::array;

impl Weights {
    pub(crate) fn none() -> Weights
        ensures { (v : Stack Range max_depth) → drop (spare v) result.values ≡ replicate (length (stacked v)) 0 }
    {
        Weights {
            values: [0; MAX_VARS],
        }
    }

    // 1 at a variable, 0 the innermost.
    pub(crate) fn one_at(index: usize, scope: &Variables) -> Weights
        requires { index < length (stacked scope.now) }
        ensures { drop (spare scope.now) result.values ≡ listed (λ v. (if nat_eq v index then 1 else 0)) (length (stacked scope.now)) }
    {
        let mut values = [0; MAX_VARS];
        values[scope.spare() + index] = 1;
        Weights { values }
    }

    // The sum at each variable.
    pub(crate) fn added(&self, other: &Weights) -> Weights
        ensures { (first : ℕ) → all_at_most sensitivity_bound (drop first self.now.values) ≡ true → all_at_most sensitivity_bound (drop first other.now.values) ≡ true → drop first result.values ≡ all_added (drop first self.now.values) (drop first other.now.values) }
    {
        self.with_times(1, other)
    }

    // The multiple at each variable.
    pub(crate) fn times(&self, factor: u64) -> Weights
        requires { factor ≤ sensitivity_bound }
        ensures { (v : Stack Range max_depth) → all_at_most sensitivity_bound (drop (spare v) self.now.values) ≡ true → drop (spare v) result.values ≡ all_times factor (drop (spare v) self.now.values) }
    {
        Weights::none().with_times(factor, self)
    }

    // At the variable that stands in front of the scope: this is of a body that has it innermost. That there is room in
    // front is asked for here and in the let's own calls, since a scope may be full.
    pub(crate) fn at_inner(&self, scope: &Variables) -> u64
        requires room { 0 < spare scope.now }
        requires small { all_at_most sensitivity_bound (drop (spare scope.now - 1) self.now.values) ≡ true }
        ensures value { result ≡ slice_index (drop (spare scope.now - 1) self.now.values) 0 }
        ensures small { result ≤ sensitivity_bound }
    {
        self.values[scope.spare() - 1]
    }

    // The body's own at the outer variables, and those of what the inner variable stands for, as often as the body uses it.
    pub(crate) fn unfolded(&self, bound: &Weights, scope: &Variables) -> Weights
        requires room { 0 < spare scope.now }
        requires body { all_at_most sensitivity_bound (drop (spare scope.now - 1) self.now.values) ≡ true }
        requires bound { all_at_most sensitivity_bound (drop (spare scope.now) bound.now.values) ≡ true }
        ensures { drop (spare scope.now) result.values ≡ all_added (drop 1 (drop (spare scope.now - 1) self.now.values)) (all_times (slice_index (drop (spare scope.now - 1) self.now.values) 0) (drop (spare scope.now) bound.now.values)) }
    {
        self.with_times(self.at_inner(scope), bound)
    }

    // Whether none is above the bound.
    pub(crate) fn are_at_most(&self, bound: u64, scope: &Variables) -> bool
        ensures { result ≡ all_at_most bound (drop (spare scope.now) self.now.values) }
    {
        self.values[scope.spare()..]
            .iter()
            .all(|weight| *weight <= bound)
    }

    // This and so many times the other, exact wherever both are within the bound. In front of a scope, where any number
    // may stand, it saturates.
    fn with_times(&self, factor: u64, other: &Weights) -> Weights
        requires { factor ≤ sensitivity_bound }
        ensures { (first : ℕ) → all_at_most sensitivity_bound (drop first self.now.values) ≡ true → all_at_most sensitivity_bound (drop first other.now.values) ≡ true → drop first result.values ≡ all_added (drop first self.now.values) (all_times factor (drop first other.now.values)) }
    {
        Weights {
            values: array::from_fn(|i| {
                self.values[i].saturating_add(factor.saturating_mul(other.values[i]))
            }),
        }
    }
}
