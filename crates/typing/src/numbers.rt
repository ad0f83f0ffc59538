// Numbers are typed over a catalogue, with some variables in scope.
ghost use Rattle.std.specs.Prelude.{◌≡◌, ℕ, ◌+◌, ◌≤◌, length, None};
ghost use Rattle.forms.specs.Limits.{room};
ghost use Rattle.forms.specs.Lined.{past};
ghost use Rattle.forms.specs.Table.{NumberTree};
ghost use Rattle.rules.specs.Catalogue.{faulty_input};
ghost use Rattle.trees.specs.Size.{size};
ghost use Rattle.typing.specs.Numbers.{NumberAt, NumberDrafted, NumberTyped, NumbersTyped};

use crate::basis::Basis;
use crate::note::Note;
use crate::terms::{TermBasis, entry_at};
use forms::form::{Entry, Form, form_at};
use forms::limits::ROOM;
use rules::amounts::Amounts;
use rules::catalogue::Catalogue;
use rules::ranges::point;
use types::fault::RuleFault;
use types::number::TypedNumber;
use types::variables::Variables;

// Types the number at a position, and notes each form of it. Linear in its size.
pub fn number(
    entries: &[Entry],
    catalogue: &Catalogue,
    at: usize,
    scope: &Variables,
    notes: &mut [Note],
) -> Result<TypedNumber, RuleFault>
    requires sound { faulty_input catalogue.now ≡ None }
    requires places { room ≤ length notes.old }
    requires is { (n o : ℕ) × (t : NumberTree) × NumberAt entries.now scope.now at n o t }
    ensures { (n o : ℕ) (t : NumberTree) → NumberAt entries.now scope.now at n o t → NumberTyped catalogue.now scope.now n o t notes.old result notes.new }
{
    let Some(places) = notes.first_chunk_mut::<ROOM>() else {
        unreachable!()
    };
    Basis { entries, catalogue }.number(at, scope, places)
}

impl Basis<'_> {
    // Types the number at a position, and notes each form of it.
    #[cycle(typed_numbers)]
    fn number(
        &self,
        at: usize,
        scope: &Variables,
        notes: &mut [Note; ROOM],
    ) -> Result<TypedNumber, RuleFault>
        requires { (n o : ℕ) × (t : NumberTree) × NumberAt self.now.entries.now scope.now at n o t }
        ensures { (n o : ℕ) (t : NumberTree) → NumberAt self.now.entries.now scope.now at n o t → NumberTyped self.now.catalogue.now scope.now n o t notes.old result notes.new }
    {
        let entry = entry_at(self.entries, at);
        let typed = self.draft_number(at, scope, notes)?;
        typed.settle(scope, entry.line)?;
        notes[entry.order] = Note::of_number(typed.range, typed.inputs);
        Ok(typed)
    }

    // The type of the number at a position, before it is held to its bounds.
    #[cycle(typed_numbers)]
    fn draft_number(
        &self,
        at: usize,
        scope: &Variables,
        notes: &mut [Note; ROOM],
    ) -> Result<TypedNumber, RuleFault>
        requires { (n o : ℕ) × (t : NumberTree) × NumberAt self.now.entries.now scope.now at n o t }
        ensures { (n o : ℕ) (t : NumberTree) → NumberAt self.now.entries.now scope.now at n o t → NumberDrafted self.now.catalogue.now scope.now n o t notes.old result notes.new }
    {
        let line = entry_at(self.entries, at).line;
        match form_at(self.entries, at) {
            Form::Num { value } => Ok(TypedNumber::unbound(point(value), Amounts::NONE)),
            Form::Setting { input } => TypedNumber::of_setting(self.catalogue, input, line),
            Form::Var { index } => TypedNumber::of_variable(scope, index, line),
            Form::Count { bag: of } => {
                let rows = self.bag(of, notes)?;
                Ok(TypedNumber::of_count(&rows))
            }
            Form::Sum {
                low,
                high,
                bag: of,
                term: value,
            } => {
                let rows = self.bag(of, notes)?;
                let beside = TermBasis {
                    entries: self.entries,
                    columns: rows.columns(),
                };
                beside.term(value, notes)?;
                TypedNumber::of_sum(low, high, &rows, line)
            }
            Form::Add { left, right } => {
                let (x, y) = self.two_numbers(left, right, scope, notes)?;
                Ok(x.plus(&y))
            }
            Form::Sub { left, right } => {
                let (x, y) = self.two_numbers(left, right, scope, notes)?;
                Ok(x.minus(&y))
            }
            Form::Least { left, right } => {
                let (x, y) = self.two_numbers(left, right, scope, notes)?;
                Ok(x.least(&y))
            }
            Form::Most { left, right } => {
                let (x, y) = self.two_numbers(left, right, scope, notes)?;
                Ok(x.most(&y))
            }
            Form::Scale {
                factor,
                number: inner,
            } => {
                let x = self.number(inner, scope, notes)?;
                Ok(x.scaled(factor))
            }
            Form::Clip {
                low,
                high,
                number: inner,
            } => {
                let x = self.number(inner, scope, notes)?;
                x.clipped(low, high, line)
            }
            Form::Let { bound, body } => {
                let x = self.number(bound, scope, notes)?;
                let inner = scope.with(x.range);
                let y = self.number(body, &inner, notes)?;
                Ok(y.named(&x, scope))
            }
            _ => unreachable(),
        }
    }

    // One number, and the number behind it.
    #[cycle(typed_numbers)]
    fn two_numbers(
        &self,
        left: usize,
        right: usize,
        scope: &Variables,
        notes: &mut [Note; ROOM],
    ) -> Result<(TypedNumber, TypedNumber), RuleFault>
        requires { (n o : ℕ) × (a b : NumberTree) × NumberAt self.now.entries.now scope.now left n o a × NumberAt self.now.entries.now scope.now right (past n a) (o + size a) b }
        ensures { (n o : ℕ) (a b : NumberTree) → NumberAt self.now.entries.now scope.now left n o a → NumberAt self.now.entries.now scope.now right (past n a) (o + size a) b → NumbersTyped self.now.catalogue.now scope.now n o a b notes.old result notes.new }
    {
        let x = self.number(left, scope, notes)?;
        let y = self.number(right, scope, notes)?;
        Ok((x, y))
    }
}
