// How a stack grows, shrinks and is read.
ghost use Rattle.std.specs.Prelude.{◌≡◌, ◌+◌, ◌<◌, [], ◌∷◌, length, drop, slice_get};
ghost use Rattle.stacks.specs.Stack.{replaced, spare, stacked};

use super::Stack;

impl<T: Copy + Default, const N: usize> Stack<T, N> {
    // No item.
    pub fn new() -> Stack<T, N>
        ensures items { stacked result ≡ [] }
        ensures spare { spare result ≡ N }
    {
        Stack::with_filler(T::default())
    }
}

impl<T: Copy, const N: usize> Stack<T, N> {
    // No item. What stands in the array does not count.
    pub fn with_filler(filler: T) -> Stack<T, N>
        ensures items { stacked result ≡ [] }
        ensures spare { spare result ≡ N }
    {
        Stack {
            items: [filler; N],
            first: N,
        }
    }

    pub fn len(&self) -> usize
        ensures { result ≡ length (stacked self.now) }
    {
        N - self.first
    }

    // The items, the innermost first.
    pub fn as_slice(&self) -> &[T]
        ensures { result.now ≡ stacked self.now }
    {
        let items = &self.items[..];
        &items[self.first..]
    }

    // How many items more there is room for.
    pub fn spare(&self) -> usize
        ensures { result ≡ spare self.now }
    {
        N - self.len()
    }

    // The innermost item, if there is one.
    pub fn innermost(&self) -> Option<T>
        ensures { result ≡ slice_get (stacked self.now) 0 }
    {
        self.as_slice().first().copied()
    }

    // One item more, the innermost.
    pub fn push(&mut self, item: T)
        requires { 0 < spare self.old }
        ensures items { stacked self.new ≡ item ∷ stacked self.old }
        ensures spare { spare self.new + 1 ≡ spare self.old }
    {
        let at = self.first - 1;
        self.items[at] = item;
        self.first = at;
    }

    // This stack with one item more, the innermost.
    pub fn with(&self, item: T) -> Stack<T, N>
        requires { 0 < spare self.now }
        ensures items { stacked result ≡ item ∷ stacked self.now }
        ensures spare { spare result + 1 ≡ spare self.now }
    {
        let mut grown = *self;
        grown.push(item);
        grown
    }

    // The innermost item is taken off, if there is one.
    pub fn pop(&mut self) -> Option<T>
        ensures item { result ≡ slice_get (stacked self.old) 0 }
        ensures rest { stacked self.new ≡ drop 1 (stacked self.old) }
    {
        let innermost = self.innermost()?;
        self.first += 1;
        Some(innermost)
    }

    // The innermost item becomes another, if there is one.
    pub fn replace(&mut self, item: T)
        ensures { stacked self.new ≡ replaced item (stacked self.old) }
    {
        if self.first < N {
            self.items[self.first] = item;
        }
    }
}
