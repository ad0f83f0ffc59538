// What can be done with a table.
ghost use Rattle.std.specs.Prelude.{◌≡◌, ◌≤◌, [], ◌∷◌, ◌++◌, length, IfOk, if◌then◌else◌, Ok, Err, nat_lt};
ghost use Rattle.forms.specs.Held.{held};
ghost use Rattle.forms.specs.Limits.{room};

use super::{Table, TableFault};
use crate::form::Entry;
use crate::limits::ROOM;
use std::alloc::{AllocError, Global};

impl Table {
    // A table with no entries.
    pub fn new(heap: Global) -> Result<Table, AllocError>
        ensures { IfOk result (λ t. held t ≡ []) }
    {
        let entries = Vec::with_capacity(heap, ROOM)?;
        Ok(Table { entries })
    }

    // How many entries there are.
    pub fn len(&self) -> usize
        ensures { result ≡ length (held self.now) }
    {
        self.entries.len()
    }

    // The entries in closing order, lent.
    pub fn entries(&self) -> &[Entry]
        ensures value { result.now ≡ held self.now }
        ensures few { length result.now ≤ room }
    {
        self.entries.as_slice()
    }

    // One entry more behind the others, and its position. A full table stays as it was.
    pub fn push(&mut self, entry: Entry) -> Result<usize, TableFault>
        ensures value { result ≡ (if nat_lt (length (held self.old)) room then Ok (length (held self.old)) else Err TableFault.Full) }
        ensures after { held self.new ≡ (if nat_lt (length (held self.old)) room then held self.old ++ entry ∷ [] else held self.old) }
    {
        let at = self.len();
        if at >= ROOM {
            return Err(TableFault::Full);
        }
        self.entries.push_reserved(entry);
        Ok(at)
    }

    // No entries any more; the room stays.
    pub fn clear(&mut self)
        ensures { held self.new ≡ [] }
    {
        self.entries.clear();
    }
}
