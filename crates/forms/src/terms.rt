// The value of a term and the truth of a condition on a row of six cells.
ghost use Rattle.std.specs.Prelude.{◌≡◌};
ghost use Rattle.trees.specs.Meaning.{holds, value};
ghost use Rattle.forms.specs.Calm.{CalmConditionAt, CalmTermAt};
ghost use Rattle.forms.specs.Table.{ConditionTree, TermTree, part_at};
ghost use Rattle.forms.specs.Table.Part.{a_condition, a_term};

use crate::form::{Entry, Form, form_at};
use crate::limits::CELLS;

// The value on `row` of the term at a position. The cost is linear in its size.
#[cycle(terms_and_conditions)]
pub fn eval_term(entries: &[Entry], at: usize, row: &[i64; CELLS]) -> i64
    requires { CalmTermAt entries.now at row.now }
    ensures { (t : TermTree) → part_at entries.now at ≡ a_term t → result ≡ value t row.now }
{
    match form_at(entries, at) {
        // `as`: that a column is not negative is proved and not tested, as for all numbers of forms.
        Form::Col { column } => row[column as usize],
        Form::Lit { value } => value,
        Form::Plus { left, right } => eval_term(entries, left, row)
            + eval_term(entries, right, row),
        Form::Times { left, right } => eval_term(entries, left, row)
            * eval_term(entries, right, row),
        Form::Pick {
            condition,
            first,
            second,
        } => {
            if eval_condition(entries, condition, row) {
                eval_term(entries, first, row)
            } else {
                eval_term(entries, second, row)
            }
        }
        _ => unreachable(),
    }
}

// Whether the condition at a position holds on `row`. The cost is linear in its size.
#[cycle(terms_and_conditions)]
pub fn eval_condition(entries: &[Entry], at: usize, row: &[i64; CELLS]) -> bool
    requires { CalmConditionAt entries.now at row.now }
    ensures { (c : ConditionTree) → part_at entries.now at ≡ a_condition c → result ≡ holds c row.now }
{
    match form_at(entries, at) {
        Form::Less { left, right } => eval_term(entries, left, row)
            < eval_term(entries, right, row),
        Form::Equal { left, right } => eval_term(entries, left, row)
            == eval_term(entries, right, row),
        Form::Either { left, right } => eval_condition(entries, left, row)
            || eval_condition(entries, right, row),
        Form::Not { condition } => !eval_condition(entries, condition, row),
        _ => unreachable(),
    }
}
