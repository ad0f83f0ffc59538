// Reads many texts, with `=` between them, checks each under one catalogue, and tells what the rules give it and its forms, or its refusal.
#![tactic(auto)]

ghost use Rattle.std.specs.Prelude.{◌≡◌, Some};
ghost use Rattle.check_texts.specs.Shown.{blank, word_of};
ghost use Rattle.std.specs.List.{suffix_len};

use checking::check::check as check_text;
use checking::query::Query;
use refusals::{Fault, Refusal};
use rules::catalogue::Catalogue;
use sources::{Range, Shape};
use std::io::Read;
use std::{fmt, io};
use trees::Kind;
use typing::note::Note;

// Some more places than a query can have forms.
const PLACES: usize = 70;

// 8 rows of two columns, 3 rows of one, and two settings.
const BENCH: Catalogue = Catalogue {
    sources: [
        Shape {
            width: 2,
            limit: 8,
            columns: [
                Range { low: 0, high: 7 },
                Range {
                    low: 1130,
                    high: 1200,
                },
                Range::ZERO,
                Range::ZERO,
                Range::ZERO,
                Range::ZERO,
            ],
        },
        Shape {
            width: 1,
            limit: 3,
            columns: [
                Range { low: 20, high: 30 },
                Range::ZERO,
                Range::ZERO,
                Range::ZERO,
                Range::ZERO,
                Range::ZERO,
            ],
        },
    ],
    settings: [Range { low: 0, high: 2000 }, Range { low: -50, high: 50 }],
};

fn main(rt: HostRuntime) -> anyhow::Result<()> {
    tell(&rt)
}

fn tell(rt: &HostRuntime) -> anyhow::Result<()> {
    let mut query = Query::new(rt.alloc())?;
    let mut notes = [Note::BLANK; PLACES];
    let mut input = String::new(rt.alloc());
    rt.stdin().read_to_string(&mut input)?;
    tell_texts(rt, input.as_str(), &mut notes, &mut query)?;
    Ok(())
}

// What one text leaves in the notes and the query is there for the next.
fn tell_texts(
    rt: &HostRuntime,
    input: &str,
    notes: &mut [Note],
    query: &mut Query,
) -> io::Result<()> {
    for text in input.split('=') {
        match check_text(text.as_bytes(), &BENCH, notes, query) {
            Ok(()) => {
                tell_query(rt, query)?;
                tell_notes(rt, notes)?;
            }
            Err(fault) => tell_refusal(rt, fault.refusal())?,
        }
    }
    Ok(())
}

fn tell_query(rt: &HostRuntime, query: &Query) -> io::Result<()> {
    let Range { low, high } = query.range();
    let moves = query.sensitivities();
    println!(rt; "range {low} to {high}, sensitivity {moves}")
}

fn tell_notes(rt: &HostRuntime, notes: &[Note]) -> io::Result<()> {
    for note in &notes[..notes.len() - blank_at_the_end(notes)] {
        tell_note(rt, note)?;
    }
    Ok(())
}

fn tell_note(rt: &HostRuntime, note: &Note) -> io::Result<()> {
    println!(rt;
        "  {} {} {} {}",
        Told(note.kind),
        note.low,
        note.high,
        note.sensitivities
    )
}

fn tell_refusal(rt: &HostRuntime, refusal: Refusal) -> io::Result<()> {
    println!(rt; "refused {refusal}")
}

// The kind of a note, or that it is blank.
#[derive(Clone, Copy)]
struct Told(Option<Kind>);

impl fmt::Display for Told {
    ghost output = { λ told. Some (word_of told.0) };

    fn fmt<W: fmt::Write>(&self, f: &mut fmt::Formatter<W>) -> fmt::Result {
        match self.0 {
            Some(kind) => write!(f, "{kind}"),
            None => f.write_str("blank"),
        }
    }
}

// How many blank places stand last.
fn blank_at_the_end(notes: &[Note]) -> usize
    ensures { result ≡ suffix_len blank notes.now }
{
    notes
        .iter()
        .rev()
        .take_while(|note| note.kind.is_none())
        .count()
}

#[cfg(test)]
mod tests {
    use super::*;
    use checking::fault::CheckFault;
    use rules::amounts::Amounts;
    use std::process::Abort;
    use std::test::Fail;
    use typing::note::Note;

    const COUNT: &[u8] = b"(count\n(bag 0)\n)\n";

    const EIGHT: Range = Range { low: 0, high: 8 };

    fn check_all(rt: &impl Abort, notes: &[Note], note: Note) {
        for found in notes {
            assert_eq!(rt; *found, note);
        }
    }

    // What a check of `COUNT` leaves.
    fn check_counted(rt: &impl Abort, notes: &[Note], query: &Query) {
        let moves = Amounts::one_at(0);
        assert!(rt; notes.len() >= 2);
        assert_eq!(rt; notes[0], Note::of_number(EIGHT, moves));
        assert_eq!(rt; notes[1], Note::of_bag(8, moves));
        check_all(rt, &notes[2..], Note::BLANK);
        assert!(rt; !query.is_empty());
        assert_eq!(rt; (query.range(), query.sensitivities()), (EIGHT, moves));
    }

    // What a check leaves that is refused where there are places enough.
    fn check_emptied(rt: &impl Abort, notes: &[Note], query: &Query) {
        check_all(rt, notes, Note::BLANK);
        assert!(rt; query.is_empty());
        assert_eq!(rt;
            (query.range(), query.sensitivities()),
            (Range::ZERO, Amounts::NONE)
        );
    }

    #[test]
    fn places_for_all_notes(rt: HostRuntime) -> Result<(), Fail> {
        let mut query = Query::new(rt.alloc())?;
        let mut notes = [Note::CONDITION; 64];
        assert_eq!(rt; check_text(COUNT, &BENCH, &mut notes, &mut query), Ok(()));
        check_counted(&rt, &notes, &query);
        let mut notes = [Note::CONDITION; 70];
        assert_eq!(rt; check_text(COUNT, &BENCH, &mut notes, &mut query), Ok(()));
        check_counted(&rt, &notes, &query);
        Ok(())
    }

    // Neither the notes nor the query are touched, and nothing else is told first.
    #[test]
    fn too_few_places(rt: HostRuntime) -> Result<(), Fail> {
        let mut query = Query::new(rt.alloc())?;
        let mut notes = [Note::BLANK; 64];
        assert_eq!(rt; check_text(COUNT, &BENCH, &mut notes, &mut query), Ok(()));
        let mut few = [Note::CONDITION; 63];
        let few_notes = Err(CheckFault::FewNotes);
        assert_eq!(rt;
            check_text(b"(num 1)\n", &BENCH, &mut few, &mut query),
            few_notes
        );
        assert_eq!(rt;
            check_text(b"", &spoiled(BENCH, 0), &mut few, &mut query),
            few_notes
        );
        check_all(&rt, &few, Note::CONDITION);
        check_counted(&rt, &notes, &query);
        assert_eq!(rt; CheckFault::FewNotes.refusal().number, 1);
        Ok(())
    }

    // The catalogue with one fault more.
    fn spoiled(mut catalogue: Catalogue, input: usize) -> Catalogue {
        match input {
            0 => catalogue.sources[0].width = 7,
            1 => catalogue.sources[1].limit = 0,
            2 => catalogue.settings[0].high = -1,
            _ => catalogue.settings[1].low = -1_000_001,
        }
        catalogue
    }

    // The query was filled, and no place was blank.
    fn check_refused(
        rt: &(impl Abort + AllocGlobal),
        text: &[u8],
        catalogue: &Catalogue,
        number: u32,
        first: usize,
    ) -> Result<(), Fail> {
        let mut query = Query::new(rt.alloc())?;
        let mut notes = [Note::CONDITION; PLACES];
        assert_eq!(rt; check_text(COUNT, &BENCH, &mut notes, &mut query), Ok(()));
        let mut notes = [Note::CONDITION; PLACES];
        let Err(fault) = check_text(text, catalogue, &mut notes, &mut query) else {
            return Err(Fail::new("it is accepted"));
        };
        let refusal = Refusal {
            number,
            first,
            second: 0,
        };
        assert_eq!(rt; fault.refusal(), refusal);
        check_emptied(rt, &notes, &query);
        Ok(())
    }

    // The lowest faulty input is told, and before anything of the text.
    #[test]
    fn faulty_catalogues(rt: HostRuntime) -> Result<(), Fail> {
        for input in 0..4 {
            let catalogue = spoiled(BENCH, input);
            check_refused(&rt, COUNT, &catalogue, 2, input)?;
            check_refused(&rt, b"", &spoiled(catalogue, 3), 2, input)?;
        }
        Ok(())
    }

    #[test]
    fn refused_texts_leave_nothing(rt: HostRuntime) -> Result<(), Fail> {
        check_refused(&rt, &[b'x'; 4097], &BENCH, 3, 0)?;
        check_refused(&rt, b"", &BENCH, 4, 0)?;
        check_refused(&rt, b"(num 1)", &BENCH, 5, 1)?;
        check_refused(&rt, b"(count\n(col 0)\n)\n", &BENCH, 10, 2)?;
        check_refused(&rt, b"(add\n(num 1)\n(var 0)\n)\n", &BENCH, 11, 3)
    }
}
