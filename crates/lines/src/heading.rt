// The word and the numbers of a line.
ghost use Rattle.std.specs.Prelude.{◌≡◌, [], ◌∷◌, length, MatchOption};
ghost use Rattle.std.specs.List.{position_or_len};
ghost use Rattle.lines.specs.Heading.{heading_read, numbers_read, pieces_in};
ghost use Rattle.lines.specs.Line.{Tells, line_read, token_heading};
ghost use Rattle.lines.specs.Shown.{shown_line, shown_token, spelling};
ghost use Rattle.lines.specs.Split.{space};

use crate::fault::LineFault;
use crate::number::number;
use crate::split::next_token;
use crate::token::{Spelled, Token};
use trees::words::Word;

// Numbers that the word does not have are 0.
#[derive(Clone, Copy)]
pub struct Heading {
    pub word: Word,
    pub first: i64,
    pub second: i64,
}

// The first line of the text, which is line `line`, and the text behind it. The cost is the length of the line.
pub fn read_line<'a>(text: &'a [u8], line: usize) -> Result<(Token<Heading>, &'a [u8]), LineFault>
    ensures value { shown_line result ≡ line_read line text.now }
    ensures exactly { Tells text.now (shown_line result) }
{
    let (token, rest) = next_token(text, line)?;
    Ok((read_token(token)?, rest))
}

// A token with its word looked up and its pieces read as numbers.
fn read_token(token: Token<Spelled>) -> Result<Token<Heading>, LineFault>
    ensures { result ≡ token_heading (shown_token token.entry) }
{
    Ok(match token {
        Token::Opening { heading, line } => Token::Opening {
            heading: read_heading(heading, line)?,
            line,
        },
        Token::Leaf { heading, line } => Token::Leaf {
            heading: read_heading(heading, line)?,
            line,
        },
        Token::Closing { line } => Token::Closing { line },
    })
}

fn read_heading(spelled: Spelled, line: usize) -> Result<Heading, LineFault>
    ensures { result ≡ heading_read line (spelling spelled.entry) }
{
    let word = Word::named(spelled.word)
        .filter(|word| word.numbers() == count_pieces(spelled.pieces))
        .ok_or(LineFault::NotAHeading { line })?;
    let (first, second) = numbers(spelled.pieces).ok_or(LineFault::NotANumber { line })?;
    Ok(Heading {
        word,
        first,
        second,
    })
}

fn count_pieces(pieces: &[u8]) -> usize
    ensures { result ≡ length (pieces_in pieces.now) }
{
    match pieces {
        [] => 0,
        [_, rest @ ..] => rest.split(|byte| *byte == b' ').count(),
    }
}

// The numbers that the first two pieces spell, 0 where there is no such piece.
fn numbers(pieces: &[u8]) -> Option<(i64, i64)>
    ensures { result ≡ numbers_read (pieces_in pieces.now) }
{
    let Some((first, rest)) = split_piece(pieces) else {
        return Some((0, 0));
    };
    let first = number(first)?;
    let Some((second, _)) = split_piece(rest) else {
        return Some((first, 0));
    };
    Some((first, number(second)?))
}

// The first piece without its space, and the pieces behind it.
fn split_piece(pieces: &[u8]) -> Option<(&[u8], &[u8])>
    ensures { MatchOption result (pieces_in pieces.now ≡ []) (λ x. pieces_in pieces.now ≡ x.0.now ∷ pieces_in x.1.now) }
{
    match pieces {
        [] => None,
        [_, rest @ ..] => Some(rest.split_at(plain_len(rest))),
    }
}

// How many bytes come before a space.
fn plain_len(bytes: &[u8]) -> usize
    ensures { result ≡ position_or_len space bytes.now }
{
    bytes.iter().take_while(|byte| **byte != b' ').count()
}
