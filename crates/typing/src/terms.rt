// Terms and conditions are typed over the columns of the bag that they stand beside.
ghost use Rattle.std.specs.Prelude.{◌≡◌, ℕ, ◌+◌, ◌<◌, length};
ghost use Rattle.forms.specs.Lined.{entry_at, past};
ghost use Rattle.forms.specs.Table.{ConditionTree, Stands, TermTree};
ghost use Rattle.refusals.specs.Rules.{reason};
ghost use Rattle.rules.specs.Typing.{place, index, scope_rule, settle, term_rule};
ghost use Rattle.sources.specs.Shapes.{column};
ghost use Rattle.trees.specs.Size.{size};
ghost use Rattle.types.specs.Faults.{rule_refusal, told};
ghost use Rattle.typing.specs.Terms.{ConditionDrafted, ConditionTyped, TermDrafted, TermTyped, TermsTyped};
ghost use Rattle.typing.specs.Told.{FormAt};

use crate::note::Note;
use forms::form::{Entry, Form, form_at};
use forms::limits::ROOM;
use rules::ranges::{hull, is_bounded, point, products, sums};
use sources::Range;
use types::fault::RuleFault;
use types::place::place_in_scope;

// How far from 0 a term's value may lie.
const TERM_BOUND: u64 = 1_000_000_000;

// The entry at a position.
pub fn entry_at(entries: &[Entry], at: usize) -> Entry
    requires { at < length entries.now }
    ensures { result ≡ entry_at entries.now at }
{
    entries[at]
}

// What terms and conditions are typed over: the forms of a query, and the ranges of the columns of the bag beside them.
#[derive(Clone, Copy)]
pub struct TermBasis<'a> {
    pub entries: &'a [Entry],
    pub columns: &'a [Range],
}

impl TermBasis<'_> {
    // Types the term at a position, and notes each form of it. Linear in its size.
    #[cycle(typed_terms)]
    pub fn term(&self, at: usize, notes: &mut [Note; ROOM]) -> Result<Range, RuleFault>
        requires { (n o : ℕ) × (t : TermTree) × FormAt self.now.entries.now at n o t }
        ensures { (n o : ℕ) (t : TermTree) → FormAt self.now.entries.now at n o t → TermTyped self.now.columns.now n o t notes.old result notes.new }
    {
        let entry = entry_at(self.entries, at);
        let range = self.draft_term(at, notes)?;
        settle_term(range, entry.line)?;
        notes[entry.order] = Note::of_term(range);
        Ok(range)
    }

    // The range of the term at a position, before it is held to its bound.
    #[cycle(typed_terms)]
    fn draft_term(&self, at: usize, notes: &mut [Note; ROOM]) -> Result<Range, RuleFault>
        requires { (n o : ℕ) × (t : TermTree) × FormAt self.now.entries.now at n o t }
        ensures { (n o : ℕ) (t : TermTree) → FormAt self.now.entries.now at n o t → TermDrafted self.now.columns.now n o t notes.old result notes.new }
    {
        match form_at(self.entries, at) {
            Form::Col { column } => column_range(
                self.columns,
                column,
                entry_at(self.entries, at).line,
            ),
            Form::Lit { value } => Ok(point(value)),
            Form::Plus { left, right } => {
                let (x, y) = self.two_terms(left, right, notes)?;
                Ok(sums(x, y))
            }
            Form::Times { left, right } => {
                let (x, y) = self.two_terms(left, right, notes)?;
                Ok(products(x, y))
            }
            Form::Pick {
                condition: test,
                first,
                second,
            } => {
                self.condition(test, notes)?;
                let (x, y) = self.two_terms(first, second, notes)?;
                Ok(hull(x, y))
            }
            _ => unreachable(),
        }
    }

    // One term, and the term behind it.
    #[cycle(typed_terms)]
    fn two_terms(
        &self,
        left: usize,
        right: usize,
        notes: &mut [Note; ROOM],
    ) -> Result<(Range, Range), RuleFault>
        requires { (n o : ℕ) × (a b : TermTree) × FormAt self.now.entries.now left n o a × FormAt self.now.entries.now right (past n a) (o + size a) b }
        ensures { (n o : ℕ) (a b : TermTree) → FormAt self.now.entries.now left n o a → FormAt self.now.entries.now right (past n a) (o + size a) b → TermsTyped self.now.columns.now n o a b notes.old result notes.new }
    {
        let x = self.term(left, notes)?;
        let y = self.term(right, notes)?;
        Ok((x, y))
    }

    // Types the terms of the condition at a position, and notes each form of it. Linear in its size.
    #[cycle(typed_terms)]
    pub fn condition(&self, at: usize, notes: &mut [Note; ROOM]) -> Result<(), RuleFault>
        requires { (n o : ℕ) × (t : ConditionTree) × FormAt self.now.entries.now at n o t }
        ensures { (n o : ℕ) (t : ConditionTree) → FormAt self.now.entries.now at n o t → ConditionTyped self.now.columns.now n o t notes.old result notes.new }
    {
        let entry = entry_at(self.entries, at);
        self.condition_parts(at, notes)?;
        notes[entry.order] = Note::CONDITION;
        Ok(())
    }

    #[cycle(typed_terms)]
    fn condition_parts(&self, at: usize, notes: &mut [Note; ROOM]) -> Result<(), RuleFault>
        requires { (n o : ℕ) × (t : ConditionTree) × FormAt self.now.entries.now at n o t }
        ensures { (n o : ℕ) (t : ConditionTree) → FormAt self.now.entries.now at n o t → ConditionDrafted self.now.columns.now n o t notes.old result notes.new }
    {
        match form_at(self.entries, at) {
            Form::Less { left, right } => {
                self.two_terms(left, right, notes)?;
                Ok(())
            }
            Form::Equal { left, right } => {
                self.two_terms(left, right, notes)?;
                Ok(())
            }
            Form::Either { left, right } => {
                self.condition(left, notes)?;
                self.condition(right, notes)
            }
            Form::Not { condition: inner } => self.condition(inner, notes),
            _ => unreachable(),
        }
    }
}

fn settle_term(range: Range, line: usize) -> Result<(), RuleFault>
    ensures { reason rule_refusal result ≡ term_rule line range }
{
    if is_bounded(TERM_BOUND, range) {
        Ok(())
    } else {
        Err(RuleFault::RangeTooWide { line })
    }
}

fn column_range(columns: &[Range], at: i64, line: usize) -> Result<Range, RuleFault>
    ensures { told (λ x. x) result ≡ settle (scope_rule line (place (length columns.now) at)) (column columns.now (index at)) }
{
    let j = place_in_scope(at, columns.len(), line)?;
    Ok(columns[j])
}
