// A line taken apart.

// What a line does: it opens a form with parts, is a whole form without parts, or closes the form last opened.
#[derive(Clone, Copy)]
pub enum Token<H> {
    Opening { heading: H, line: usize },
    Leaf { heading: H, line: usize },
    Closing { line: usize },
}

// What stands behind the first bracket, as parts of the text: the word, and the pieces with the space before each.
#[derive(Clone, Copy)]
pub struct Spelled<'a> {
    pub word: &'a [u8],
    pub pieces: &'a [u8],
}
