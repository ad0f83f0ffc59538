// What the words make of numbers.
ghost use Rattle.std.specs.Prelude.{◌≡◌, ℕ, ◌-◌, ◌<◌, ◌≤◌, true, int_le, unsigned_abs};
ghost use Rattle.refusals.specs.Rules.{reason};
ghost use Rattle.rules.specs.Ranges.{differences, greater, lesser, sums};
ghost use Rattle.rules.specs.Typing.{both, cut, multiple, named, number_rule, scope_rule, sensitivity_bound, settle};
ghost use Rattle.sources.specs.declared.shapes.Range.{Range};
ghost use Rattle.trees.specs.Size.{literal_bound, max_depth};
ghost use Rattle.types.specs.Faults.{rule_refusal, told};
ghost use Rattle.stacks.specs.Stack.{spare};
ghost use Rattle.stacks.specs.declared.stack.Stack.{Stack};
ghost use Rattle.types.specs.Shown.{NumberGood, number_shown};

use super::TypedNumber;
use crate::fault::RuleFault;
use crate::limits::{NUMBER_BOUND, SENSITIVITY_BOUND};
use crate::variables::Variables;
use rules::amounts::Amounts;
use rules::ranges::{clips, differences, greater, is_bounded, lesser, scaled, sums};
use sources::Range;

// That a number is settled speaks of the scope that it stands in, by how many places are to spare in front of it, and
// is asked for here, since no number holds its scope.
impl TypedNumber {
    pub fn plus(&self, other: &TypedNumber) -> TypedNumber
        requires { (first : ℕ) × NumberGood first self.now × NumberGood first other.now }
        ensures { (first : ℕ) → NumberGood first self.now → NumberGood first other.now → number_shown first result ≡ both sums (number_shown first self.now) (number_shown first other.now) }
    {
        self.joined(other, sums(self.range, other.range))
    }

    pub fn minus(&self, other: &TypedNumber) -> TypedNumber
        requires { (first : ℕ) × NumberGood first self.now × NumberGood first other.now }
        ensures { (first : ℕ) → NumberGood first self.now → NumberGood first other.now → number_shown first result ≡ both differences (number_shown first self.now) (number_shown first other.now) }
    {
        self.joined(other, differences(self.range, other.range))
    }

    pub fn least(&self, other: &TypedNumber) -> TypedNumber
        requires { (first : ℕ) × NumberGood first self.now × NumberGood first other.now }
        ensures { (first : ℕ) → NumberGood first self.now → NumberGood first other.now → number_shown first result ≡ both lesser (number_shown first self.now) (number_shown first other.now) }
    {
        self.joined(other, lesser(self.range, other.range))
    }

    pub fn most(&self, other: &TypedNumber) -> TypedNumber
        requires { (first : ℕ) × NumberGood first self.now × NumberGood first other.now }
        ensures { (first : ℕ) → NumberGood first self.now → NumberGood first other.now → number_shown first result ≡ both greater (number_shown first self.now) (number_shown first other.now) }
    {
        self.joined(other, greater(self.range, other.range))
    }

    pub fn scaled(&self, factor: i64) -> TypedNumber
        requires factor { unsigned_abs factor ≤ literal_bound }
        requires good { (first : ℕ) × NumberGood first self.now }
        ensures { (v : Stack Range max_depth) → NumberGood (spare v) self.now → number_shown (spare v) result ≡ multiple factor (number_shown (spare v) self.now) }
    {
        let size = factor.unsigned_abs();
        TypedNumber {
            range: scaled(factor, self.range),
            inputs: self.inputs.times(size),
            vars: self.vars.times(size),
        }
    }

    pub fn clipped(&self, low: i64, high: i64, line: usize) -> Result<TypedNumber, RuleFault>
        ensures { (first : ℕ) → told (number_shown first) result ≡ settle (scope_rule line (int_le low high)) (cut low high (number_shown first self.now)) }
    {
        if low > high {
            return Err(RuleFault::OutOfScope { line });
        }
        Ok(TypedNumber {
            range: clips(low, high, self.range),
            inputs: self.inputs,
            vars: self.vars,
        })
    }

    // This is the body of a let, typed with one variable more in scope, the innermost, which stands for `bound`.
    pub fn named(&self, bound: &TypedNumber, scope: &Variables) -> TypedNumber
        requires room { 0 < spare scope.now }
        requires bound { NumberGood (spare scope.now) bound.now }
        requires body { NumberGood (spare scope.now - 1) self.now }
        ensures { number_shown (spare scope.now) result ≡ named (number_shown (spare scope.now) bound.now) (number_shown (spare scope.now - 1) self.now) }
    {
        let uses = self.vars.at_inner(scope);
        TypedNumber {
            range: self.range,
            inputs: self.inputs.with_times(uses, bound.inputs),
            vars: self.vars.unfolded(&bound.vars, scope),
        }
    }

    // Holds a number to the bounds of the rules.
    pub fn settle(&self, scope: &Variables, line: usize) -> Result<(), RuleFault>
        ensures { reason rule_refusal result ≡ number_rule line (number_shown (spare scope.now) self.now) }
    {
        if !is_bounded(NUMBER_BOUND, self.range) {
            return Err(RuleFault::RangeTooWide { line });
        }
        if self.inputs.are_at_most(SENSITIVITY_BOUND)
            && self.vars.are_at_most(SENSITIVITY_BOUND, scope)
        {
            Ok(())
        } else {
            Err(RuleFault::TooSensitive { line })
        }
    }

    // What two numbers make together: their sensitivities add up.
    fn joined(&self, other: &TypedNumber, range: Range) -> TypedNumber
        requires { (first : ℕ) × NumberGood first self.now × NumberGood first other.now }
        ensures { (first : ℕ) → NumberGood first self.now → NumberGood first other.now → number_shown first result ≡ both (λ _ _. range) (number_shown first self.now) (number_shown first other.now) }
    {
        TypedNumber {
            range,
            inputs: self.inputs.added(other.inputs),
            vars: self.vars.added(&other.vars),
        }
    }
}
