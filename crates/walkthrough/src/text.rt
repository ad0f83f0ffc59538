// A query text from a file, and three that are refused.
ghost use Rattle.std.specs.Prelude.{◌≡◌, ◌^◌, ◌<◌};
ghost use Rattle.walkthrough.specs.Nesting.{nesting, opened};

use crate::day::read_file;
use forms::table::Table;
use reading::text::read;
use refusals::Fault;

pub fn tell(rt: &HostRuntime) -> anyhow::Result<()> {
    let mut table = Table::new(rt.alloc())?;
    for name in [
        "under_1180.query",
        "two_spaces.query",
        "left_open.query",
        "count_of_a_column.query",
    ] {
        let text = read_file(rt, name)?;
        tell_text(rt, name, text.as_slice(), &mut table)?;
    }
    Ok(())
}

// A text that is read is the written form of its query.
fn tell_text(rt: &HostRuntime, name: &str, text: &[u8], table: &mut Table) -> anyhow::Result<()> {
    match read(text, table) {
        Ok(()) => {
            let forms = table.len();
            let depth = depth(text);
            println!(rt; "{name} is read: {forms} forms, depth {depth}.")?;
        }
        Err(fault) => {
            let told = fault.refusal();
            let (number, line) = (told.number, told.first);
            println!(rt; "{name} is refused: {number} at line {line}.")?;
        }
    }
    Ok(())
}

// How deep the brackets go.
fn depth(text: &[u8]) -> usize
    ensures { result ≡ nesting 0 text.now }
{
    let mut level: usize = 0;
    let mut deepest: usize = 0;
    for byte in text {
        level = level_behind(level, *byte);
        deepest = deepest.max(level);
    }
    deepest
}

// How many brackets are open behind a byte.
fn level_behind(level: usize, byte: u8) -> usize
    requires { level < 2 ^ 63 }
    ensures { result ≡ opened level byte }
{
    match byte {
        b'(' => level + 1,
        b')' => level.saturating_sub(1),
        _ => level,
    }
}
