// A form that is open.
ghost use Rattle.std.specs.Prelude.{◌≡◌, ◌<◌};
ghost use Rattle.reading.specs.Frame.{form_of, fresh, next_kind, with_begun, with_part};

use forms::form::Form;
use lines::heading::Heading;
use trees::Kind;
use trees::words::Word;

// The heading with its line, the form's number in the order of opening lines, how many parts are begun, and the positions
// of the last three parts that are closed. These have names: as a list they would want a proof that there is no fourth.
#[derive(Clone, Copy)]
pub struct Frame {
    pub heading: Heading,
    pub line: usize,
    pub order: usize,
    pub begun: usize,
    pub third_last: usize,
    pub second_last: usize,
    pub last: usize,
}

impl Frame {
    // Stands where no form is open, and does not count.
    pub const FILLER: Frame = Frame {
        heading: Heading {
            word: Word::Bag,
            first: 0,
            second: 0,
        },
        line: 0,
        order: 0,
        begun: 0,
        third_last: 0,
        second_last: 0,
        last: 0,
    };

    // A form without parts as yet. A heading and its line come from a token, and go into a frame.
    pub fn new(heading: Heading, line: usize, order: usize) -> Frame
        ensures { result ≡ fresh heading line order }
    {
        Frame {
            heading,
            line,
            order,
            begun: 0,
            third_last: 0,
            second_last: 0,
            last: 0,
        }
    }

    // The kind of the next part, if there is to be one.
    pub fn next_kind(&self) -> Option<Kind>
        ensures { result ≡ next_kind self.now }
    {
        self.heading.word.parts().get(self.begun).copied()
    }

    // One part more is begun.
    pub fn with_begun(self) -> Frame
        requires { self.begun < 3 }
        ensures { result ≡ with_begun self }
    {
        Frame {
            begun: self.begun + 1,
            ..self
        }
    }

    // The part begun last is closed and stands at this position.
    pub fn with_part(self, at: usize) -> Frame
        ensures { result ≡ with_part at self }
    {
        Frame {
            third_last: self.second_last,
            second_last: self.last,
            last: at,
            ..self
        }
    }

    // The form as the table holds it.
    pub fn form(&self) -> Form
        ensures { result ≡ form_of self.now }
    {
        let first = self.heading.first;
        let second = self.heading.second;
        let (left, right) = (self.second_last, self.last);
        match self.heading.word {
            Word::Bag => Form::Bag { source: first },
            Word::Keep => Form::Keep {
                bag: left,
                condition: right,
            },
            Word::Put => Form::Put {
                column: first,
                bag: left,
                term: right,
            },
            Word::Pool => Form::Pool {
                first: left,
                second: right,
            },
            Word::Col => Form::Col { column: first },
            Word::Lit => Form::Lit { value: first },
            Word::Plus => Form::Plus { left, right },
            Word::Times => Form::Times { left, right },
            Word::Pick => Form::Pick {
                condition: self.third_last,
                first: left,
                second: right,
            },
            Word::Less => Form::Less { left, right },
            Word::Equal => Form::Equal { left, right },
            Word::Either => Form::Either { left, right },
            Word::Not => Form::Not { condition: right },
            Word::Num => Form::Num { value: first },
            Word::Setting => Form::Setting { input: first },
            Word::Var => Form::Var { index: first },
            Word::Count => Form::Count { bag: right },
            Word::Sum => Form::Sum {
                low: first,
                high: second,
                bag: left,
                term: right,
            },
            Word::Add => Form::Add { left, right },
            Word::Sub => Form::Sub { left, right },
            Word::Least => Form::Least { left, right },
            Word::Most => Form::Most { left, right },
            Word::Scale => Form::Scale {
                factor: first,
                number: right,
            },
            Word::Clip => Form::Clip {
                low: first,
                high: second,
                number: right,
            },
            Word::Let => Form::Let {
                bound: left,
                body: right,
            },
        }
    }
}
