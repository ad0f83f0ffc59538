// Where a reader stands between two lines, and what a line changes there.
ghost use Rattle.std.specs.Prelude.{◌≡◌, ◌+◌, ◌<◌, true, [], ◌∷◌, ◌++◌, length, is_some};
ghost use Rattle.forms.specs.Held.{held};
ghost use Rattle.forms.specs.Limits.{room};
ghost use Rattle.trees.specs.Size.{max_depth, max_forms};
ghost use Rattle.reading.specs.Decide.{wanted};
ghost use Rattle.reading.specs.Frame.{entry_of, fresh};
ghost use Rattle.reading.specs.Progress.{Balanced, Steps, begun_form, is_wanted, opened_form, standing, start, state, with_closed};
ghost use Rattle.reading.specs.Stack.{first_of};

use crate::decide::{MAX_DEPTH, placed, wanted};
use crate::fault::FormFault;
use crate::frame::Frame;
use forms::form::Entry;
use forms::table::Table;
use lines::heading::Heading;
use lines::token::Token;
use stacks::Stack;
use trees::Kind;

// The forms that are open, how many are begun, and the first line with a form of a wrong kind.
#[derive(Clone, Copy)]
pub struct Progress {
    pub stack: Stack<Frame, MAX_DEPTH>,
    pub forms: usize,
    pub wrong: Option<usize>,
}

impl Progress {
    // Nothing is read yet.
    pub fn new() -> Progress
        ensures { standing result ≡ start }
    {
        Progress {
            stack: Stack::with_filler(Frame::FILLER),
            forms: 0,
            wrong: None,
        }
    }

    // Reads one line: what it meets is the innermost open form.
    pub fn step(
        &mut self,
        table: &mut Table,
        last: bool,
        token: Token<Heading>,
    ) -> Result<(), FormFault>
        requires { Balanced (state self.old table.old) }
        ensures { Steps (state self.old table.old) last token result (state self.new table.new) }
    {
        let innermost = self.stack.innermost();
        placed(innermost, self.stack.len(), self.forms, last, token)?;
        match (innermost, token) {
            (_, Token::Opening { heading, line }) => self.open(heading, line),
            (_, Token::Leaf { heading, line }) => {
                let form = self.begin(heading, line);
                self.close(table, form);
            }
            (Some(form), Token::Closing { .. }) => {
                self.stack.pop();
                self.close(table, form);
            }
            (None, Token::Closing { .. }) => {}
        }
        Ok(())
    }

    // A form with parts is begun and stays open.
    fn open(&mut self, heading: Heading, line: usize)
        requires place { is_some (wanted (first_of (standing self.old).open_forms) (standing self.old).forms) ≡ true }
        requires few { (standing self.old).forms < max_forms }
        requires shallow { length (standing self.old).open_forms < max_depth }
        ensures { standing self.new ≡ opened_form heading line (standing self.old) }
    {
        let form = self.begin(heading, line);
        self.stack.push(form);
    }

    // One form more is begun, as a part of the innermost one.
    fn begin(&mut self, heading: Heading, line: usize) -> Frame
        requires place { is_some (wanted (first_of (standing self.old).open_forms) (standing self.old).forms) ≡ true }
        requires few { (standing self.old).forms < max_forms }
        ensures form { result ≡ fresh heading line (standing self.old).forms }
        ensures after { standing self.new ≡ begun_form heading line (standing self.old) }
    {
        let innermost = self.stack.innermost();
        let order = self.forms;
        if self.wrong.is_none() && !is_wanted(wanted(innermost, order), heading.word.kind()) {
            self.wrong = Some(line);
        }
        if let Some(whole) = innermost {
            self.stack.replace(whole.with_begun());
        }
        self.forms = order + 1;
        Frame::new(heading, line, order)
    }

    // The form goes to the end of the table, and is a part of the innermost open form.
    fn close(&mut self, table: &mut Table, form: Frame)
        requires { length (held table.old) < room }
        ensures entries { held table.new ≡ held table.old ++ entry_of form ∷ [] }
        ensures after { standing self.new ≡ with_closed (length (held table.old)) (standing self.old) }
    {
        let at = table.len();
        let _ = table.push(Entry {
            form: form.form(),
            line: form.line,
            order: form.order,
        });
        if let Some(whole) = self.stack.innermost() {
            self.stack.replace(whole.with_part(at));
        }
    }
}

fn is_wanted(wanted: Option<Kind>, kind: Kind) -> bool
    ensures { result ≡ is_wanted wanted kind }
{
    wanted == Some(kind)
}
