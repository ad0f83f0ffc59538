// A table that is asked of a plant.
ghost use Rattle.std.specs.Prelude.{◌≤◌, length};
ghost use Rattle.forms.specs.Limits.{room};

use crate::plant::Plant;
use forms::form::Entry;

#[derive(Drop)]
pub struct Asked<'a, A, B> {
    pub entries: &'a [Entry],
    pub plant: &'a Plant<'a, A, B>,
    ghost few: { length entries.now ≤ room },
}
