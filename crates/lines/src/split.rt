// A line is split into its token; what the token holds is lent from the text.
ghost use Rattle.std.specs.Prelude.{◌≡◌};
ghost use Rattle.std.specs.List.{prefix_len, zip};
ghost use Rattle.lines.specs.Shown.{shown, shown_read};
ghost use Rattle.lines.specs.Split.{form_token, joins, letter, pieces_run, token_at, token_read};

use crate::fault::LineFault;
use crate::token::{Spelled, Token};

// The token of the first line of the text, which is line `line`, and the text behind that line. The cost is the length of
// the line. Text and number are no value: a closing and a fault tell the number, and what is read on has another text.
pub fn next_token<'a>(
    text: &'a [u8],
    line: usize,
) -> Result<(Token<Spelled<'a>>, &'a [u8]), LineFault>
    ensures { shown_read result ≡ token_read line text.now }
{
    first_token(text, line).ok_or(LineFault::NotALine { line })
}

fn first_token<'a>(text: &'a [u8], line: usize) -> Option<(Token<Spelled<'a>>, &'a [u8])>
    ensures { shown result ≡ token_at line text.now }
{
    match text {
        [b')', b'\n', rest @ ..] => Some((Token::Closing { line }, rest)),
        [b'(', rest @ ..] => form_token(rest, line),
        _ => None,
    }
}

fn form_token<'a>(text: &'a [u8], line: usize) -> Option<(Token<Spelled<'a>>, &'a [u8])>
    ensures { shown result ≡ form_token line text.now }
{
    let (word, tail) = text.split_at(letters(text));
    if word.is_empty() {
        return None;
    }
    let (pieces, end) = tail.split_at(pieces_len(tail)?);
    let heading = Spelled { word, pieces };
    match end {
        [b'\n', rest @ ..] => Some((Token::Opening { heading, line }, rest)),
        [b')', b'\n', rest @ ..] => Some((Token::Leaf { heading, line }, rest)),
        _ => None,
    }
}

// How many letters come first.
fn letters(bytes: &[u8]) -> usize
    ensures { result ≡ prefix_len letter bytes.now }
{
    bytes
        .iter()
        .take_while(|byte| byte.is_ascii_lowercase())
        .count()
}

// How many bytes of pieces come first, if each piece has a byte behind its space. It looks no further than the first
// bracket, line end, or space behind a space.
fn pieces_len(bytes: &[u8]) -> Option<usize>
    ensures { result ≡ pieces_run bytes.now }
{
    match bytes {
        [b' ', rest @ ..] => {
            let len = joined_len(bytes, rest);
            (bytes[len] != b' ').then_some(len + 1)
        }
        _ => Some(0),
    }
}

// How many bytes of `rest` go on with the pieces, each looked at with the byte before it.
fn joined_len(bytes: &[u8], rest: &[u8]) -> usize
    ensures { result ≡ prefix_len joins (zip bytes.now rest.now) }
{
    bytes
        .iter()
        .zip(rest)
        .take_while(|(before, byte)| !matches!(
            (**before, **byte),
            (_, b'(' | b')' | b'\n') | (b' ', b' ')
        ))
        .count()
}
