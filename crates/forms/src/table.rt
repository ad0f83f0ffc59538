// The table of a query: its entries in closing order, in memory that is reserved when the table is made.
ghost use Rattle.std.specs.Prelude.{◌≤◌, vec_len, vec_capacity};
ghost use Rattle.forms.specs.Limits.{room};

use crate::form::Entry;

mod calls;

// The room for all entries is there from the start, so that none is refused for memory.
#[derive(Drop)]
pub struct Table {
    entries: Vec<Entry>,
    ghost reserved: { room ≤ vec_capacity entries },
    ghost few: { vec_len entries ≤ room },
}

// Why a table takes no further entry.
#[derive(Clone, Copy, PartialEq, Eq, Debug)]
pub enum TableFault {
    Full,
}
