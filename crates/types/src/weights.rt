// How far a number moves with each variable in scope, in a fixed array that is filled from its end.
ghost use Rattle.std.specs.Prelude.{◌≡◌, length};
ghost use Rattle.trees.specs.Size.{max_depth};

use crate::limits::MAX_VARS;

mod calls;

// Each variable's sensitivity stands where its range does in the scope. Those in front of the scope do not count.
#[derive(Clone, Copy)]
pub struct Weights {
    values: [u64; MAX_VARS],
    ghost full: { length values ≡ max_depth },
}
