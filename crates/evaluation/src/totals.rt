// The totals of a table: what its counts and sums add up to, on any two sources.
ghost use Rattle.std.specs.Prelude.{◌≡◌, ◌≤◌, length, ◌+ℤ◌};
ghost use Rattle.forms.specs.Leaves.{Leaf, leaf_total};
ghost use Rattle.forms.specs.Limits.{room};
ghost use Rattle.forms.specs.Table.{BagTree, part_at};
ghost use Rattle.forms.specs.Table.Part.{a_bag};
ghost use Rattle.forms.specs.Totals.{RightBelow};
ghost use Rattle.trees.specs.Meaning.{rows, total as total_of};
ghost use Rattle.evaluation.specs.Addends.{added};
ghost use Rattle.evaluation.specs.Plants.{plant_of};
ghost use Rattle.evaluation.specs.Sums.{AddsBag, AddsLeaf, SumsTyped, sources_of};

use crate::addends::{Addend, tally_of};
use crate::asked::Asked;
use crate::rows::Pass;
use forms::bags::find_route;
use forms::form::form_at;
use forms::limits::ROOM;
use forms::route::Route;
use sources::Source;

impl<A: Source, B: Source> Asked<'_, A, B> {
    // The total with all rows of a leaf.
    fn add_leaf(&self, route: &Route, addend: Addend, total: i64) -> i64
        requires { (l : Leaf) × AddsLeaf self.now.entries.now addend route.now (plant_of A.Source.meaning B.Source.meaning self.now.plant.now) total l }
        ensures { (l : Leaf) → AddsLeaf self.now.entries.now addend route.now (plant_of A.Source.meaning B.Source.meaning self.now.plant.now) total l → result ≡ total +ℤ leaf_total (added self.now.entries.now addend) (sources_of (plant_of A.Source.meaning B.Source.meaning self.now.plant.now)) l }
    {
        let pass = Pass {
            entries: self.entries,
            route,
            addend,
        };
        // The sources are of two types, and the pass is generic: no one value stands for either.
        if route.source() == 0 {
            pass.add_rows(self.plant.first, total)
        } else {
            pass.add_rows(self.plant.second, total)
        }
    }

    // What is added for all rows of the bag at a position, leaf by leaf. A leaf is asked for by its number, until there is none.
    fn add_bag(&self, bag: usize, addend: Addend) -> i64
        requires { AddsBag self.now.entries.now bag addend (plant_of A.Source.meaning B.Source.meaning self.now.plant.now) }
        ensures { (b : BagTree) → part_at self.now.entries.now bag ≡ a_bag b → result ≡ total_of (added self.now.entries.now addend) (rows b (sources_of (plant_of A.Source.meaning B.Source.meaning self.now.plant.now))) }
    {
        let mut total = 0;
        for nth in 0.. {
            match find_route(self.entries, bag, nth) {
                Some(route) => total = self.add_leaf(&route, addend, total),
                None => break,
            }
        }
        total
    }

    // The totals of the counts and sums of the table, each at its own position. For each leaf of their bags one pass is
    // made over the rows of its source.
    pub fn totals(&self) -> [i64; ROOM]
        requires { SumsTyped self.now.entries.now (plant_of A.Source.meaning B.Source.meaning self.now.plant.now) }
        ensures { RightBelow self.now.entries.now result (sources_of (plant_of A.Source.meaning B.Source.meaning self.now.plant.now)) (length self.now.entries.now) }
    {
        let mut totals = [0; ROOM];
        // A position names a form and its total alike.
        for at in 0..self.entries.len() {
            if let Some(tally) = tally_of(form_at(self.entries, at)) {
                totals[at] = self.add_bag(tally.bag, tally.addend);
            }
        }
        totals
    }
}
