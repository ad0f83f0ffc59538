// How a query is made, and what it tells.
ghost use Rattle.std.specs.Prelude.{◌≡◌, ◌≤◌, length, IfOk, ◌==◌};
ghost use Rattle.forms.specs.Limits.{room};
ghost use Rattle.checking.specs.Query.{Emptied, SoundQuery, catalogue_of, entries_in, range_of, sensitivities_of};

use super::{NO_CATALOGUE, Query};
use forms::form::Entry;
use forms::table::Table;
use rules::amounts::Amounts;
use rules::catalogue::Catalogue;
use sources::Range;
use std::alloc::{AllocError, Global};

impl Query {
    // An empty query.
    pub fn new(heap: Global) -> Result<Query, AllocError>
        ensures { IfOk result Emptied }
    {
        Ok(Query {
            table: Table::new(heap)?,
            catalogue: NO_CATALOGUE,
            range: Range::ZERO,
            sensitivities: Amounts::NONE,
        })
    }

    pub fn is_empty(&self) -> bool
        ensures { result ≡ (length (entries_in self.now) == 0) }
    {
        self.table.len() == 0
    }

    // The forms in closing order, lent.
    pub fn entries(&self) -> &[Entry]
        ensures value { result.now ≡ entries_in self.now }
        ensures few { length result.now ≤ room }
    {
        self.table.entries()
    }

    pub fn catalogue(&self) -> Catalogue
        ensures { result ≡ catalogue_of self.now }
    {
        self.catalogue
    }

    // The least and the greatest value, 0 and 0 where it is empty.
    pub fn range(&self) -> Range
        ensures { result ≡ range_of self.now }
    {
        self.range
    }

    // How far its value moves with each input, 0 where it is empty.
    pub fn sensitivities(&self) -> Amounts
        ensures { result ≡ sensitivities_of self.now }
    {
        self.sensitivities
    }

    // By its type a query is empty, or holds a number as the rules type it. The call does nothing.
    pub fn law(&self)
        ensures { SoundQuery self.now }
    {}
}
