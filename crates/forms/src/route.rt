// The way that a row takes from a leaf to the top of its bag.
ghost use Rattle.std.specs.Prelude.{◌≡◌, ◌≤◌, length};
ghost use Rattle.forms.specs.Limits.{room};

use crate::limits::ROOM;

mod calls;

// The leaf's source, and the positions of the `len` keep and put forms on the way up, the nearest to the leaf first. An
// array, since a route is `Copy`, and no list of the library that allocates nothing is.
#[derive(Clone, Copy)]
pub struct Route {
    source: i64,
    steps: [usize; ROOM],
    len: usize,
    ghost full: { length steps ≡ room },
    ghost within: { len ≤ room },
}
