// One pass over the rows of a source, of any kind.
ghost use Rattle.std.specs.Prelude.{◌≡◌, List, ◌+ℤ◌};
ghost use Rattle.forms.specs.Leaves.{Step, arriving, carried};
ghost use Rattle.forms.specs.Route.{steps_of};
ghost use Rattle.trees.specs.Meaning.{total as total_of};
ghost use Rattle.evaluation.specs.Addends.{AddsRow, AddsRows, added, from_leaf};

use crate::addends::{Addend, added};
use forms::bags::carry;
use forms::form::Entry;
use forms::limits::CELLS;
use forms::route::Route;
use sources::{Source, padded_row};

// What is added for the rows of a leaf's source, and the way that they take to the top of the bag.
#[derive(Clone, Copy)]
pub struct Pass<'a> {
    pub entries: &'a [Entry],
    pub route: &'a Route,
    pub addend: Addend,
}

impl Pass<'_> {
    // The total with a row, which adds nothing where it is dropped on its way.
    fn add_row(&self, row: &[i64; CELLS], total: i64) -> i64
        requires { (way : List Step) × AddsRow self.now.entries.now self.now.addend (steps_of self.now.route.now) row.now total way }
        ensures { (way : List Step) → AddsRow self.now.entries.now self.now.addend (steps_of self.now.route.now) row.now total way → result ≡ total +ℤ arriving (added self.now.entries.now self.now.addend) (carried way row.now) }
    {
        match carry(self.entries, self.route, row) {
            Some(arrived) => total + added(self.entries, self.addend, &arrived),
            None => total,
        }
    }

    // The total with all rows of a source. Each row is asked for once, by its number.
    pub fn add_rows<S: Source>(&self, source: &S, total: i64) -> i64
        requires { (way : List Step) × AddsRows self.now.entries.now self.now.addend (steps_of self.now.route.now) (S.Source.meaning source.now).width (S.Source.meaning source.now).rows total way }
        ensures { (way : List Step) → AddsRows self.now.entries.now self.now.addend (steps_of self.now.route.now) (S.Source.meaning source.now).width (S.Source.meaning source.now).rows total way → result ≡ total +ℤ total_of (from_leaf self.now.entries.now self.now.addend way) (S.Source.meaning source.now).rows }
    {
        let width = source.width();
        let mut sum = total;
        for i in 0..source.count() {
            let row = padded_row(source, width, i);
            sum = self.add_row(&row, sum);
        }
        sum
    }
}
