// A query that is empty, or typed by the rules under its catalogue.
ghost use Rattle.std.specs.Prelude.{◌≡◌, true};
ghost use Rattle.forms.specs.Held.{held};
ghost use Rattle.checking.specs.Typed.{is_query};

use forms::table::Table;
use rules::amounts::Amounts;
use rules::catalogue::Catalogue;
use sources::{Range, Shape};

mod calls;
mod fill;

// The table has room for every query from the start, so that no check wants for memory.
#[derive(Drop)]
pub struct Query {
    table: Table,
    catalogue: Catalogue,
    range: Range,
    sensitivities: Amounts,
    ghost typed: { is_query (held table) catalogue range sensitivities ≡ true },
}

// What an empty query stands under: sources of no rows, and settings that are 0.
const NO_CATALOGUE: Catalogue = Catalogue {
    sources: [Shape::EMPTY, Shape::EMPTY],
    settings: [Range::ZERO, Range::ZERO],
};
