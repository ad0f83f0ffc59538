// Query texts are checked against the catalogue of a pan, and what is noted of their forms is told as a table.
#![tactic(auto)]

use anyhow::anyhow;
use checking::check::check;
use checking::query::Query;
use forms::limits::ROOM;
use pans::DAY;
use refusals::Fault;
use rules::catalogue::Catalogue;
use sources::Range;
use std::fs;
use typing::note::Note;

// Both sources are logs of a day; the settings are a density, and a correction of it.
const PAN: Catalogue = Catalogue {
    sources: [DAY, DAY],
    settings: [Range { low: 0, high: 2000 }, Range { low: -50, high: 50 }],
};

fn main(rt: HostRuntime) -> anyhow::Result<()> {
    tell(&rt)
}

fn tell(rt: &HostRuntime) -> anyhow::Result<()> {
    let mut notes = [Note::BLANK; ROOM];
    let mut query = Query::new(rt.alloc())?;
    for name in ["under_1180.query", "no_such_column.query"] {
        let text = fs::read(rt, name).map_err(|error| anyhow!("{name} cannot be read: {error}"))?;
        tell_check(rt, name, text.as_slice(), &mut notes, &mut query)?;
    }
    Ok(())
}

fn tell_check(
    rt: &HostRuntime,
    name: &str,
    text: &[u8],
    notes: &mut [Note],
    query: &mut Query,
) -> anyhow::Result<()> {
    if let Err(fault) = check(text, &PAN, notes, query) {
        let told = fault.refusal();
        println!(rt; "{name} is refused by the check: {told}.")?;
        return Ok(());
    }
    let (low, high) = (query.range().low, query.range().high);
    println!(rt; "{name} is accepted: its value lies from {low} to {high}.")?;
    println!(rt; "  form           low   high  sensitivities")?;
    for note in notes.iter() {
        tell_note(rt, note)?;
    }
    Ok(())
}

fn tell_note(rt: &HostRuntime, note: &Note) -> anyhow::Result<()> {
    let Some(kind) = note.kind else {
        return Ok(());
    };
    let (low, high, moves) = (note.low, note.high, note.sensitivities);
    println!(rt; "  {kind:<9} {low:>8} {high:>6}  {moves}")?;
    Ok(())
}
