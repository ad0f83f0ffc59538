// Lists of a few items in a place of fixed size: no memory is asked for, and none is wanted.
#![tactic(auto)]

mod stack;

pub use stack::Stack;

#[cfg(test)]
mod tests {
    use crate::Stack;
    use std::test::Fail;

    #[test]
    fn the_innermost_first(rt: HostRuntime) -> Result<(), Fail> {
        let outer: Stack<u8, 3> = Stack::new().with(5);
        let mut stack = outer.with(6);
        assert!(rt; stack.as_slice() == [6, 5].as_slice());
        assert_eq!(rt; (stack.len(), stack.spare()), (2, 1));
        stack.replace(7);
        assert_eq!(rt; stack.pop(), Some(7));
        assert_eq!(rt; stack.innermost(), Some(5));
        stack.pop();
        assert_eq!(rt; (stack.pop(), stack.len()), (None, 0));
        assert_eq!(rt; outer.len(), 1);
        Ok(())
    }
}
