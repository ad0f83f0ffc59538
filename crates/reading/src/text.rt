// A whole text is read, line by line.
ghost use Rattle.std.specs.Prelude.{◌≡◌, []};
ghost use Rattle.forms.specs.Held.{held};
ghost use Rattle.reading.specs.Law.{OpensLines, ReadsTrees};
ghost use Rattle.reading.specs.Text.{Fills, entries_of, kinds_read, replied, text_read};

use crate::fault::FormFault;
use crate::progress::Progress;
use forms::table::Table;
use lines::heading::read_line;

// Reads the text into the table, which has an entry for each form, in closing order. A refused text leaves the table empty. The cost is linear in the length of the text.
pub fn read(text: &[u8], table: &mut Table) -> Result<(), FormFault>
    ensures reply { result ≡ replied (text_read text.now) }
    ensures table { held table.new ≡ entries_of (text_read text.now) }
    ensures law { ReadsTrees text.now result (held table.new) }
    ensures lines { OpensLines text.now (held table.new) }
{
    read_anew(text, table)
}

fn read_anew(text: &[u8], table: &mut Table) -> Result<(), FormFault>
    ensures reply { result ≡ replied (text_read text.now) }
    ensures table { held table.new ≡ entries_of (text_read text.now) }
{
    table.clear();
    let reply = fill(text, table);
    if reply.is_err() {
        table.clear();
    }
    reply
}

// Fills an empty table. After a fault, the entries up to it are left in the table.
fn fill(text: &[u8], table: &mut Table) -> Result<(), FormFault>
    requires { held table.old ≡ [] }
    ensures { Fills text.now result (held table.new) }
{
    let mut progress = Progress::new();
    let mut rest = text;
    let mut line = 0;
    // What is left shows only once a line is read, so the lines are no iterator.
    while !rest.is_empty() {
        line += 1;
        let (token, behind) = read_line(rest, line)?;
        progress.step(table, behind.is_empty(), token)?;
        rest = behind;
    }
    kinds(progress.wrong)
}

// A wrong kind counts only where nothing else is wrong.
fn kinds(wrong: Option<usize>) -> Result<(), FormFault>
    ensures { result ≡ kinds_read wrong }
{
    wrong.map_or(Ok(()), |line| Err(FormFault::WrongKind { line }))
}
