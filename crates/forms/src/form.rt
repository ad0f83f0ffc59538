// A form as the table holds it: its word with its numbers, and the positions of its parts.
ghost use Rattle.std.specs.Prelude.{◌≡◌, ◌<◌, length, slice_index_or};
ghost use Rattle.forms.specs.Table.{Stands};

// One variant for each word. A `usize` is the position of a part, which stands before its whole: parts are in no boxes,
// since a check allocates nothing.
#[derive(Clone, Copy)]
pub enum Form {
    Bag {
        source: i64,
    },
    Keep {
        bag: usize,
        condition: usize,
    },
    Put {
        column: i64,
        bag: usize,
        term: usize,
    },
    Pool {
        first: usize,
        second: usize,
    },
    Col {
        column: i64,
    },
    Lit {
        value: i64,
    },
    Plus {
        left: usize,
        right: usize,
    },
    Times {
        left: usize,
        right: usize,
    },
    Pick {
        condition: usize,
        first: usize,
        second: usize,
    },
    Less {
        left: usize,
        right: usize,
    },
    Equal {
        left: usize,
        right: usize,
    },
    Either {
        left: usize,
        right: usize,
    },
    Not {
        condition: usize,
    },
    Num {
        value: i64,
    },
    Setting {
        input: i64,
    },
    Var {
        index: i64,
    },
    Count {
        bag: usize,
    },
    Sum {
        low: i64,
        high: i64,
        bag: usize,
        term: usize,
    },
    Add {
        left: usize,
        right: usize,
    },
    Sub {
        left: usize,
        right: usize,
    },
    Least {
        left: usize,
        right: usize,
    },
    Most {
        left: usize,
        right: usize,
    },
    Scale {
        factor: i64,
        number: usize,
    },
    Clip {
        low: i64,
        high: i64,
        number: usize,
    },
    Let {
        bound: usize,
        body: usize,
    },
}

// A form with the line that opens it and its number in the order of opening lines.
#[derive(Clone, Copy)]
pub struct Entry {
    pub form: Form,
    pub line: usize,
    pub order: usize,
}

// The form at a position, by which its part is built from the parts before it. Here and wherever a part is asked for,
// the entries are lent on and the position changes, so they are two parameters.
pub fn form_at(entries: &[Entry], at: usize) -> Form
    requires { at < length entries.now }
    ensures value { (d : Entry) → result ≡ (slice_index_or entries.now at d).form }
    ensures stands { Stands entries.now at result }
{
    entries[at].form
}
