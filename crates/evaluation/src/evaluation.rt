// The value of a query's table on any plant.
ghost use Rattle.std.specs.Prelude.{◌≡◌, ◌-◌, ◌≤◌, [], length};
ghost use Rattle.forms.specs.Limits.{room};
ghost use Rattle.forms.specs.Table.{NumberTree, part_at};
ghost use Rattle.forms.specs.Table.Part.{a_number};
ghost use Rattle.rules.specs.Sound.{inputs_of};
ghost use Rattle.trees.specs.Meaning.{number};
ghost use Rattle.evaluation.specs.Plants.{plant_of};
ghost use Rattle.evaluation.specs.Queries.{Evaluable};

use crate::asked::Asked;
use crate::plant::Plant;
use forms::form::Entry;
use forms::numbers::Figures;
use forms::scope::Scope;
use rules::laws::rules_keep_values_in_range;
use sources::Source;

// The value of the number at the last position. Nothing is allocated. For each leaf of each count and sum one pass is
// made over the rows of its source, and a row costs what the forms on its way cost; the leaf itself is found once, in
// time linear in its bag. The numbers above cost as much as they have forms.
pub fn evaluate<A: Source, B: Source>(entries: &[Entry], plant: &Plant<A, B>) -> i64
    requires few { length entries.now ≤ room }
    requires typed { (t : NumberTree) × Evaluable entries.now (plant_of A.Source.meaning B.Source.meaning plant.now) t }
    ensures { (t : NumberTree) → part_at entries.now (length entries.now - 1) ≡ a_number t → result ≡ number t (inputs_of (plant_of A.Source.meaning B.Source.meaning plant.now)) [] }
{
    // A law that the totals rest on; the call does nothing.
    rules_keep_values_in_range();
    let asked = Asked { entries, plant };
    let totals = asked.totals();
    let settings = plant.settings;
    let figures = Figures {
        entries,
        totals: &totals,
        settings: &settings,
    };
    figures.number(entries.len() - 1, &Scope::new())
}
