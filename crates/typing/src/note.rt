// What is noted of each form: its kind, its range and its sensitivities.
ghost use Rattle.std.specs.Prelude.{◌≡◌, ◌≤◌, pos};
ghost use Rattle.rules.specs.Ranges.{most_rows};
ghost use Rattle.typing.specs.Notes.{bag_note, kind_number, number_note, term_note};

use rules::amounts::Amounts;
use sources::Range;
use trees::Kind;

// A blank place has no kind. A condition has no range. A bag's range is the number of its rows. Only bags and numbers have
// sensitivities.
#[derive(Clone, Copy, PartialEq, Eq, Debug)]
pub struct Note {
    pub kind: Option<Kind>,
    pub low: i64,
    pub high: i64,
    pub sensitivities: Amounts,
}

impl Note {
    pub const BLANK: Note = Note {
        kind: None,
        low: 0,
        high: 0,
        sensitivities: Amounts::NONE,
    };

    pub const CONDITION: Note = Note {
        kind: Some(Kind::Condition),
        low: 0,
        high: 0,
        sensitivities: Amounts::NONE,
    };

    // 0 where it is blank; 1 for a term, 2 for a condition, 3 for a bag and 4 for a number.
    pub fn kind_number(&self) -> u8
        ensures { result ≡ kind_number self.now.kind }
    {
        self.kind.map_or(0, |kind| kind as u8 + 1)
    }

    pub fn of_term(range: Range) -> Note
        ensures { result ≡ term_note range }
    {
        Note {
            kind: Some(Kind::Term),
            low: range.low,
            high: range.high,
            sensitivities: Amounts::NONE,
        }
    }

    pub fn of_bag(limit: usize, sensitivities: Amounts) -> Note
        requires { limit ≤ most_rows }
        ensures { result ≡ bag_note limit sensitivities }
    {
        // `as`, since i64 has no From of usize.
        Note {
            kind: Some(Kind::Bag),
            low: 0,
            high: limit as i64,
            sensitivities,
        }
    }

    pub fn of_number(range: Range, sensitivities: Amounts) -> Note
        ensures { result ≡ number_note range sensitivities }
    {
        Note {
            kind: Some(Kind::Number),
            low: range.low,
            high: range.high,
            sensitivities,
        }
    }
}
