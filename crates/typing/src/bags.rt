// Bags are typed over a catalogue.
ghost use Rattle.std.specs.Prelude.{ℕ};
ghost use Rattle.forms.specs.Table.{BagTree};
ghost use Rattle.typing.specs.Bags.{BagDrafted, BagTyped};
ghost use Rattle.typing.specs.Told.{FormAt};

use crate::basis::Basis;
use crate::note::Note;
use crate::terms::{TermBasis, entry_at};
use forms::form::{Form, form_at};
use forms::limits::ROOM;
use types::bag::TypedBag;
use types::fault::RuleFault;

impl Basis<'_> {
    // Types the bag at a position, and notes each form of it. Linear in its size.
    #[cycle(typed_bags)]
    pub fn bag(&self, at: usize, notes: &mut [Note; ROOM]) -> Result<TypedBag, RuleFault>
        requires { (n o : ℕ) × (b : BagTree) × FormAt self.now.entries.now at n o b }
        ensures { (n o : ℕ) (b : BagTree) → FormAt self.now.entries.now at n o b → BagTyped self.now.catalogue.now n o b notes.old result notes.new }
    {
        let entry = entry_at(self.entries, at);
        let typed = self.draft_bag(at, notes)?;
        notes[entry.order] = Note::of_bag(typed.shape.limit, typed.inputs);
        Ok(typed)
    }

    // The type of the bag at a position, before it is noted.
    #[cycle(typed_bags)]
    fn draft_bag(&self, at: usize, notes: &mut [Note; ROOM]) -> Result<TypedBag, RuleFault>
        requires { (n o : ℕ) × (b : BagTree) × FormAt self.now.entries.now at n o b }
        ensures { (n o : ℕ) (b : BagTree) → FormAt self.now.entries.now at n o b → BagDrafted self.now.catalogue.now n o b notes.old result notes.new }
    {
        let line = entry_at(self.entries, at).line;
        match form_at(self.entries, at) {
            Form::Bag { source } => TypedBag::of_source(self.catalogue, source, line),
            Form::Keep {
                bag: rows,
                condition: test,
            } => {
                let typed = self.bag(rows, notes)?;
                let beside = TermBasis {
                    entries: self.entries,
                    columns: typed.columns(),
                };
                beside.condition(test, notes)?;
                Ok(typed)
            }
            Form::Put {
                column,
                bag: rows,
                term: value,
            } => {
                let typed = self.bag(rows, notes)?;
                let beside = TermBasis {
                    entries: self.entries,
                    columns: typed.columns(),
                };
                let range = beside.term(value, notes)?;
                typed.with_column(column, range, line)
            }
            Form::Pool { first, second } => {
                let x = self.bag(first, notes)?;
                let y = self.bag(second, notes)?;
                x.pooled(&y, line)
            }
            _ => unreachable(),
        }
    }
}
