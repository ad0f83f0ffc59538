// The value of a number, from the totals of its counts and sums, the settings and the variables in scope.
ghost use Rattle.std.specs.Prelude.{◌≡◌, ◌<◌, ◌≤◌, List, length};
ghost use Rattle.trees.specs.Meaning.{Row, clipped, number};
ghost use Rattle.forms.specs.Calm.{inputs};
ghost use Rattle.forms.specs.Table.{NumberTree};
ghost use Rattle.forms.specs.Totals.{Ready};
ghost use Rattle.stacks.specs.Stack.{spare, stacked};

use crate::form::{Entry, Form, form_at};
use crate::limits::ROOM;
use crate::scope::Scope;

// `x` cut to `high` at most, and then to `low` at least.
pub fn clip(low: i64, high: i64, x: i64) -> i64
    ensures { result ≡ clipped low high x }
{
    low.max(high.min(x))
}

// What the numbers of a table are read off: each count and sum has its total at its own position.
#[derive(Clone, Copy)]
pub struct Figures<'a> {
    pub entries: &'a [Entry],
    pub totals: &'a [i64; ROOM],
    pub settings: &'a [i64; 2],
}

impl Figures<'_> {
    // The value of the number at a position. Linear in its size; a `let` copies the scope once.
    pub fn number(&self, at: usize, scope: &Scope) -> i64
        requires spare { at < spare scope.now }
        requires ready { (sources : List (List Row)) × (n : NumberTree) × Ready self.now.entries.now at self.now.totals.now self.now.settings.now (stacked scope.now) sources n }
        ensures { (sources : List (List Row)) (n : NumberTree) → Ready self.now.entries.now at self.now.totals.now self.now.settings.now (stacked scope.now) sources n → result ≡ number n (inputs sources self.now.settings.now) (stacked scope.now) }
    {
        match form_at(self.entries, at) {
            Form::Num { value } => value,
            // `as`: as in `eval_term`.
            Form::Setting { input } => self.settings[input as usize],
            Form::Var { index } => scope.as_slice()[index as usize],
            Form::Count { .. } | Form::Sum { .. } => self.totals[at],
            Form::Add { left, right } => self.number(left, scope) + self.number(right, scope),
            Form::Sub { left, right } => self.number(left, scope) - self.number(right, scope),
            Form::Least { left, right } => self.number(left, scope).min(self.number(right, scope)),
            Form::Most { left, right } => self.number(left, scope).max(self.number(right, scope)),
            Form::Scale { factor, number } => factor * self.number(number, scope),
            Form::Clip { low, high, number } => clip(low, high, self.number(number, scope)),
            Form::Let { bound, body } => {
                let value = self.number(bound, scope);
                self.number(body, &scope.with(value))
            }
            _ => unreachable(),
        }
    }
}
