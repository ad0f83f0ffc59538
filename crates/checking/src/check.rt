// The call that checks a text.
ghost use Rattle.std.specs.Prelude.{◌≡◌, length, replicate};
ghost use Rattle.forms.specs.Limits.{room};
ghost use Rattle.checking.specs.Check.{AcceptsExactly, Checks};
ghost use Rattle.checking.specs.Fills.{ChecksAnew};
ghost use Rattle.typing.specs.Notes.{blank_note};

use crate::call::Call;
use crate::fault::CheckFault;
use crate::query::Query;
use forms::limits::ROOM;
use rules::catalogue::Catalogue;
use typing::note::Note;

// How many bytes a text has at most.
pub const MAX_TEXT: usize = 4096;

// Checks the text against the catalogue. An accepted text fills the query, and each of its forms is noted in order of
// opening lines; the other places are blank. A refused text empties the query and blanks all notes, but where there are
// too few places nothing is touched. Linear in the text and the places; nothing is allocated.
pub fn check(
    text: &[u8],
    catalogue: &Catalogue,
    notes: &mut [Note],
    query: &mut Query,
) -> Result<(), CheckFault>
    ensures outcome { Checks catalogue.now text.now notes.old query.old result notes.new query.new }
    ensures exactly { AcceptsExactly catalogue.now text.now (length notes.old) result }
{
    check_or_clear(text, catalogue, notes, query)
}

fn check_or_clear(
    text: &[u8],
    catalogue: &Catalogue,
    notes: &mut [Note],
    query: &mut Query,
) -> Result<(), CheckFault>
    ensures { Checks catalogue.now text.now notes.old query.old result notes.new query.new }
{
    let Some((places, behind)) = notes.split_first_chunk_mut::<ROOM>() else {
        return Err(CheckFault::FewNotes);
    };
    blank(behind);
    let reply = check_anew(text, catalogue, places, query);
    if reply.is_err() {
        blank(places);
        query.clear();
    }
    reply
}

// What it leaves where it refuses is of no use.
fn check_anew(
    text: &[u8],
    catalogue: &Catalogue,
    notes: &mut [Note; ROOM],
    query: &mut Query,
) -> Result<(), CheckFault>
    ensures { ChecksAnew catalogue.now text.now room result notes.new query.new }
{
    let call = Call::new(text, catalogue)?;
    query.fill(&call, notes)?;
    let forms = query.entries().len();
    blank(&mut notes[forms..]);
    Ok(())
}

fn blank(notes: &mut [Note])
    ensures { notes.new ≡ replicate (length notes.old) blank_note }
{
    notes.fill(Note::BLANK);
}
