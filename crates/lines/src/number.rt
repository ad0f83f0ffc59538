// Whole numbers as a query spells them: digits with no needless zeros, perhaps a minus in front, and not `-0`.
ghost use Rattle.std.specs.Prelude.{◌≡◌};
ghost use Rattle.lines.specs.Number.{number_spelled, numeral, value_from, Spells};

// How far from 0 a number in a query may be.
const LITERAL_BOUND: u32 = 1_000_000;

// The number that the bytes spell, if they spell one within the bound.
pub fn number(piece: &[u8]) -> Option<i64>
    ensures value { result ≡ number_spelled piece.now }
    ensures exactly { Spells piece.now result }
{
    match piece {
        [b'-', digits @ ..] => unsigned(digits).filter(|n| *n != 0).map(|n| -i64::from(n)),
        _ => unsigned(piece).map(i64::from),
    }
}

fn unsigned(digits: &[u8]) -> Option<u32>
    ensures { result ≡ numeral digits.now }
{
    match digits {
        [] | [b'0', _, ..] => None,
        _ => value(digits),
    }
}

fn value(digits: &[u8]) -> Option<u32>
    ensures { result ≡ value_from 0 digits.now }
{
    let mut n = 0;
    // A fold's closure would know no bound on the number so far, and would have to check each sum.
    for digit in digits {
        if !digit.is_ascii_digit() {
            return None;
        }
        n = 10 * n + u32::from(*digit - b'0');
        if n > LITERAL_BOUND {
            return None;
        }
    }
    Some(n)
}
