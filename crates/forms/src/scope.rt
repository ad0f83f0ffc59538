// The values of the variables in scope, the innermost first.
use crate::limits::ROOM;
use stacks::Stack;

pub type Scope = Stack<i64, ROOM>;
