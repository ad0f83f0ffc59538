// The ranges of the variables in scope, the innermost first.
use crate::limits::MAX_VARS;
use sources::Range;
use stacks::Stack;

pub type Variables = Stack<Range, MAX_VARS>;
