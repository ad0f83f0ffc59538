// The rows of a bag, one at a time and without memory of their own: each leaf's route is found once, and each row of
// its source is carried along it.
ghost use Rattle.std.specs.Prelude.{◌≡◌, ◌≤◌, List, length};
ghost use Rattle.forms.specs.Leaves.{CalmStep, CalmWay, Found, Leads, Sought, Spread, Step, StepAt, carried, leaves, stepped};
ghost use Rattle.forms.specs.Limits.{room};
ghost use Rattle.forms.specs.Padding.{Unseen};
ghost use Rattle.forms.specs.Route.{steps_of};
ghost use Rattle.forms.specs.Table.{BagTree, part_at};
ghost use Rattle.forms.specs.Table.Part.{a_bag};

use crate::form::{Entry, Form, form_at};
use crate::limits::CELLS;
use crate::route::Route;
use crate::terms::{eval_condition, eval_term};

// The route from leaf `nth` of the bag at a position, or how many leaves `nth` lies beyond the last.
fn seek(entries: &[Entry], at: usize, nth: usize) -> Result<Route, usize>
    requires few { length entries.now ≤ room }
    requires is { (b : BagTree) × (part_at entries.now at ≡ a_bag b) }
    ensures { (b : BagTree) → part_at entries.now at ≡ a_bag b → Sought entries.now at (leaves b) nth result }
{
    match form_at(entries, at) {
        Form::Bag { source } => {
            if nth == 0 {
                Ok(Route::new(source))
            } else {
                Err(nth - 1)
            }
        }
        Form::Keep { bag, .. } | Form::Put { bag, .. } => {
            let mut route = seek(entries, bag, nth)?;
            route.push(at);
            Ok(route)
        }
        Form::Pool { first, second } => match seek(entries, first, nth) {
            Ok(route) => Ok(route),
            Err(rest) => seek(entries, second, rest),
        },
        _ => unreachable(),
    }
}

// The entries may be a caller's own, as long as a table's are, and not only a table's.
// The route from leaf `nth` of the bag at `top`, leaves counted from 0 in order; none past the last leaf.
// Linear in the size of the bag.
pub fn find_route(entries: &[Entry], top: usize, nth: usize) -> Option<Route>
    requires few { length entries.now ≤ room }
    requires is { (b : BagTree) × (part_at entries.now top ≡ a_bag b) }
    ensures { (b : BagTree) → part_at entries.now top ≡ a_bag b → Found entries.now top (leaves b) nth result }
{
    seek(entries, top, nth).ok()
}

// A row after the keep or put form at a position; none where it is dropped.
fn pass(entries: &[Entry], at: usize, mut row: [i64; CELLS]) -> Option<[i64; CELLS]>
    requires { (s : Step) × StepAt entries.now at s × CalmStep s row }
    ensures { (s : Step) → StepAt entries.now at s → result ≡ stepped s row }
{
    match form_at(entries, at) {
        Form::Keep { condition, .. } => eval_condition(entries, condition, &row).then_some(row),
        Form::Put { column, term, .. } => {
            let value = eval_term(entries, term, &row);
            // `as`: as in `eval_term`.
            row[column as usize] = value;
            Some(row)
        }
        _ => unreachable(),
    }
}

// A row of the leaf's source at the top of the bag; none where a keep form on the way drops it. What arrives from all
// leaves is what the bag holds, and a row that is padded with zeros arrives as the row does.
pub fn carry(entries: &[Entry], route: &Route, row: &[i64; CELLS]) -> Option<[i64; CELLS]>
    requires { (way : List Step) × Leads entries.now (steps_of route.now) way × CalmWay way row.now }
    ensures carried { (way : List Step) → Leads entries.now (steps_of route.now) way → CalmWay way row.now → result ≡ carried way row.now }
    ensures spread { (b : BagTree) → Spread b }
    ensures unseen { Unseen }
{
    let mut carried = *row;
    let steps = route.steps();
    for at in steps {
        carried = pass(entries, *at, carried)?;
    }
    Some(carried)
}
