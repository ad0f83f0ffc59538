// Whether a line may stand where it stands.
ghost use Rattle.std.specs.Prelude.{◌≡◌};
ghost use Rattle.reading.specs.Decide.{fits, has_parts, has_room, leaves_open, line_of, placed, wanted};

use crate::fault::FormFault;
use crate::frame::Frame;
use forms::limits::ROOM;
use lines::heading::Heading;
use lines::token::Token;
use trees::Kind;
use trees::words::Word;

// How deep a form may stand.
pub const MAX_DEPTH: usize = 16;

// How many forms a text may have: as many as a table holds.
pub const MAX_FORMS: usize = ROOM;

// The kind that the next form is to have, if a form may stand here. The text wants one number.
pub fn wanted(innermost: Option<Frame>, forms: usize) -> Option<Kind>
    ensures { result ≡ wanted innermost forms }
{
    match innermost {
        Some(frame) => frame.next_kind(),
        None => (forms == 0).then_some(Kind::Number),
    }
}

fn has_parts(word: Word) -> bool
    ensures { result ≡ has_parts word }
{
    !word.parts().is_empty()
}

// Whether the line meets the innermost open form as it should: a form where one is wanted, on the line form of its word, and a close where none is wanted.
fn fits(innermost: Option<Frame>, wanted: Option<Kind>, token: Token<Heading>) -> bool
    ensures { result ≡ fits innermost wanted token }
{
    match (innermost, token) {
        (_, Token::Opening { heading, line: _ }) => wanted.is_some() && has_parts(heading.word),
        (_, Token::Leaf { heading, line: _ }) => wanted.is_some() && !has_parts(heading.word),
        (Some(_), Token::Closing { line: _ }) => wanted.is_none(),
        (None, Token::Closing { line: _ }) => false,
    }
}

// Whether a form is open behind the line.
fn leaves_open(depth: usize, token: Token<Heading>) -> bool
    ensures { result ≡ leaves_open depth token }
{
    match token {
        Token::Opening { .. } => true,
        Token::Leaf { .. } => depth > 0,
        Token::Closing { .. } => depth > 1,
    }
}

// Whether a form more is within the limits.
fn has_room(depth: usize, forms: usize, token: Token<Heading>) -> bool
    ensures { result ≡ has_room depth forms token }
{
    match token {
        Token::Closing { .. } => true,
        _ => depth < MAX_DEPTH && forms < MAX_FORMS,
    }
}

fn line_of(token: Token<Heading>) -> usize
    ensures { result ≡ line_of token }
{
    match token {
        Token::Opening { line, .. } | Token::Leaf { line, .. } | Token::Closing { line } => line,
    }
}

// The fault of a line among `depth` open forms, with `forms` forms begun before it.
pub fn placed(
    innermost: Option<Frame>,
    depth: usize,
    forms: usize,
    last: bool,
    token: Token<Heading>,
) -> Result<(), FormFault>
    ensures { result ≡ placed innermost depth forms last token }
{
    let line = line_of(token);
    if !fits(innermost, wanted(innermost, forms), token) {
        return Err(FormFault::Misplaced { line });
    }
    if last && leaves_open(depth, token) {
        return Err(FormFault::Misplaced { line });
    }
    if !has_room(depth, forms, token) {
        return Err(FormFault::TooLarge { line });
    }
    Ok(())
}
