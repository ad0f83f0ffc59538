// Two queries built in code: how they are written, and their values on rows and settings.
ghost use Rattle.std.specs.Prelude.{◌≡◌, pos};
ghost use Rattle.forms.specs.Table.{part_at};
ghost use Rattle.forms.specs.Table.Part.{a_bag, a_number};
ghost use Rattle.trees.specs.Written.{written};
ghost use Rattle.walkthrough.specs.Queries.{margin, readings_under, rows_under};

use forms::bags::{carry, find_route};
use forms::form::{Entry, Form};
use forms::limits::ROOM;
use forms::numbers::Figures;
use forms::scope::Scope;

// Each form stands behind its parts, with its opening line and its number in opening order.
macro_rules! entries {
    ($($line:expr, $order:expr => $form:expr;)*) => {
        [$(Entry { form: $form, line: $line, order: $order }),*]
    };
}

pub fn tell(rt: &HostRuntime) -> anyhow::Result<()> {
    println!(rt; "A query of six forms counts the readings under 1180. It is written:")?;
    print!(rt; "{}", readings_under_text())?;
    tell_rows(rt)?;
    println!(rt; "A query of four forms tells how far setting 0 lies above 1175:")?;
    print!(rt; "{}", margin_text())?;
    let value = margin_at_1180();
    println!(rt; "Where setting 0 is 1180, its value is {value}.")?;
    Ok(())
}

fn readings_under() -> [Entry; 6]
    ensures whole { part_at result 5 ≡ a_number readings_under }
    ensures bag { part_at result 4 ≡ a_bag rows_under }
{
    entries! {
        3, 2 => Form::Bag { source: 0 };
        5, 4 => Form::Col { column: 1 };
        6, 5 => Form::Lit { value: 1180 };
        4, 3 => Form::Less { left: 1, right: 2 };
        2, 1 => Form::Keep { bag: 0, condition: 3 };
        1, 0 => Form::Count { bag: 4 };
    }
}

fn readings_under_text() -> &'static str
    ensures { result.now ≡ written readings_under }
{
    "(count\n(keep\n(bag 0)\n(less\n(col 1)\n(lit 1180)\n)\n)\n)\n"
}

fn margin_text() -> &'static str
    ensures { result.now ≡ written margin }
{
    "(clip 0 10\n(sub\n(setting 0)\n(num 1175)\n)\n)\n"
}

// Two rows of source 0, carried to the top of the bag.
fn tell_rows(rt: &HostRuntime) -> anyhow::Result<()> {
    let entries = readings_under();
    let Some(route) = find_route(&entries, 4, 0) else {
        return Ok(());
    };
    for row in [[0, 1150, 0, 0, 0, 0], [870, 1196, 0, 0, 0, 0]] {
        let density = row[1];
        match carry(&entries, &route, &row) {
            Some(_) => println!(rt; "It keeps a row of density {density}.")?,
            None => println!(rt; "It drops a row of density {density}.")?,
        }
    }
    Ok(())
}

// The value of the margin where setting 0 is 1180.
fn margin_at_1180() -> i64
    ensures { result ≡ pos 5 }
{
    let entries = entries! {
        3, 2 => Form::Setting { input: 0 };
        4, 3 => Form::Num { value: 1175 };
        2, 1 => Form::Sub { left: 0, right: 1 };
        1, 0 => Form::Clip { low: 0, high: 10, number: 2 };
    };
    let figures = Figures {
        entries: &entries,
        totals: &[0; ROOM],
        settings: &[1180, 5],
    };
    figures.number(3, &Scope::new())
}
