// A stack of at most N items, in an array that is filled from its end.
ghost use Rattle.std.specs.Prelude.{◌≡◌, ◌≤◌, length, ⊤};

use std::alloc::AllocError;

mod calls;

// In place, so that nothing is allocated. The innermost item stands at `first`, the outermost last.
#[derive(Copy)]
pub struct Stack<T, const N: usize> {
    items: [T; N],
    first: usize,
    ghost full: { length items ≡ N },
    ghost within: { first ≤ N },
}

// By hand, since `Clone` is not derived over ghost fields where a type is `Copy` only with its items.
impl<T: Copy, const N: usize> Clone for Stack<T, N> {
    ghost is_clone = { λ x y. y ≡ x };

    ghost is_infallible = { λ _. ⊤ };

    fn clone(&self) -> Result<Stack<T, N>, AllocError> {
        Ok(*self)
    }
}
