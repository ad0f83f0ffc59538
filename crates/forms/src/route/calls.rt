// How a route is made and read.
ghost use Rattle.std.specs.Prelude.{◌≡◌, ◌<◌, [], ◌∷◌, ◌++◌, length};
ghost use Rattle.forms.specs.Limits.{room};
ghost use Rattle.forms.specs.Route.{from_source, steps_of};

use super::Route;
use crate::limits::ROOM;

impl Route {
    // From a leaf that is itself the top.
    pub(crate) fn new(source: i64) -> Route
        ensures source { from_source result ≡ source }
        ensures steps { steps_of result ≡ [] }
    {
        Route {
            source,
            steps: [0; ROOM],
            len: 0,
        }
    }

    // One step further up.
    pub(crate) fn push(&mut self, at: usize)
        requires { length (steps_of self.old) < room }
        ensures source { from_source self.new ≡ from_source self.old }
        ensures steps { steps_of self.new ≡ steps_of self.old ++ at ∷ [] }
    {
        self.steps[self.len] = at;
        self.len += 1;
    }

    // The source that the leaf names.
    pub fn source(&self) -> i64
        ensures { result ≡ from_source self.now }
    {
        self.source
    }

    // The positions of the steps, the nearest to the leaf first.
    pub(crate) fn steps(&self) -> &[usize]
        ensures { result.now ≡ steps_of self.now }
    {
        &self.steps[..self.len]
    }
}
