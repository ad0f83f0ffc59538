// What bags and numbers are typed over.
ghost use Rattle.std.specs.Prelude.{◌≡◌, None};
ghost use Rattle.rules.specs.Catalogue.{faulty_input};

use forms::form::Entry;
use rules::catalogue::Catalogue;

// The forms of a query, and a catalogue that is faulty at no input. The position, the variables in scope and the notes are
// no part of it: they change with each form.
#[derive(Clone, Copy)]
pub struct Basis<'a> {
    pub entries: &'a [Entry],
    pub catalogue: &'a Catalogue,
    ghost sound: { faulty_input catalogue.now ≡ None },
}
