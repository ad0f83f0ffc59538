// How a query is emptied, and filled with what a text spells.
ghost use Rattle.std.specs.Prelude.{◌≡◌};
ghost use Rattle.forms.specs.Held.{held};
ghost use Rattle.checking.specs.Fills.{Fills};
ghost use Rattle.checking.specs.Query.{Emptied};
ghost use Rattle.checking.specs.Reading.{ReadsTyped};

use super::{NO_CATALOGUE, Query};
use crate::call::Call;
use crate::fault::CheckFault;
use forms::limits::ROOM;
use forms::table::Table;
use reading::text::read;
use rules::amounts::Amounts;
use sources::Range;
use types::number::TypedNumber;
use types::variables::Variables;
use typing::note::Note;
use typing::numbers::number;

impl Query {
    // As a new query.
    pub fn clear(&mut self)
        ensures { Emptied self.new }
    {
        self.table.clear();
        self.catalogue = NO_CATALOGUE;
        self.range = Range::ZERO;
        self.sensitivities = Amounts::NONE;
    }

    // Fills the query with what the text spells, and notes its forms from the first place on. A refused text leaves the query empty.
    pub(crate) fn fill(&mut self, call: &Call, notes: &mut [Note; ROOM]) -> Result<(), CheckFault>
        ensures { Fills call.now.catalogue.now call.now.text.now notes.old result notes.new self.new }
    {
        self.clear();
        match read_typed(call, &mut self.table, notes) {
            Ok(typed) => {
                self.catalogue = *call.catalogue;
                self.range = typed.range;
                self.sensitivities = typed.inputs;
                Ok(())
            }
            Err(fault) => {
                self.table.clear();
                Err(fault)
            }
        }
    }
}

// The table holds the text's forms, and the outermost is typed.
fn read_typed(
    call: &Call,
    table: &mut Table,
    notes: &mut [Note; ROOM],
) -> Result<TypedNumber, CheckFault>
    ensures { ReadsTyped call.now.catalogue.now call.now.text.now notes.old result (held table.new) notes.new }
{
    read(call.text, table)?;
    let entries = table.entries();
    let typed = number(
        entries,
        call.catalogue,
        entries.len() - 1,
        &Variables::new(),
        notes,
    )?;
    Ok(typed)
}
