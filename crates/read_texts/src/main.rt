// Reads many texts, with `=` between them, and tells of each how many forms it has, or its refusal.
#![tactic(auto)]

use forms::table::Table;
use reading::text::read;
use refusals::Fault;
use std::io::Read;

fn main(rt: HostRuntime) -> anyhow::Result<()> {
    tell(&rt)
}

fn tell(rt: &HostRuntime) -> anyhow::Result<()> {
    let mut table = Table::new(rt.alloc())?;
    let mut input = String::new(rt.alloc());
    rt.stdin().read_to_string(&mut input)?;
    for text in input.split('=') {
        match read(text.as_bytes(), &mut table) {
            Ok(()) => {
                let forms = table.len();
                println!(rt; "{forms} forms")?;
            }
            Err(fault) => {
                let refusal = fault.refusal();
                let number = refusal.number;
                let line = refusal.first;
                // Of a text the second place is none.
                println!(rt; "refused {number} at line {line}")?;
            }
        }
    }
    Ok(())
}

#[cfg(test)]
mod tests {
    use super::*;
    use lines::fault::LineFault;
    use reading::fault::FormFault;
    use std::test::Fail;

    #[test]
    fn odd_bytes(rt: HostRuntime) -> Result<(), Fail> {
        let mut table = Table::new(rt.alloc())?;
        let number = Err(FormFault::Line(LineFault::NotANumber { line: 1 }));
        assert_eq!(rt; read(b"(num 1\0)\n", &mut table), number);
        assert_eq!(rt; read(b"(num 1\r)\n", &mut table), number);
        assert_eq!(rt; read(b"(num \xff)\n", &mut table), number);
        let line = Err(FormFault::Line(LineFault::NotALine { line: 1 }));
        assert_eq!(rt; read(b"(num 1)\0\n", &mut table), line);
        assert_eq!(rt; read(b"(n\xffm 1)\n", &mut table), line);
        Ok(())
    }

    #[test]
    fn a_refused_text_leaves_no_entries(rt: HostRuntime) -> Result<(), Fail> {
        let mut table = Table::new(rt.alloc())?;
        assert_eq!(rt; read(b"(count\n(bag 0)\n)\n", &mut table), Ok(()));
        assert_eq!(rt; table.len(), 2);
        assert_eq!(rt;
            read(b"(count\n(col 0)\n)\n", &mut table),
            Err(FormFault::WrongKind { line: 2 })
        );
        assert_eq!(rt; table.len(), 0);
        Ok(())
    }

    #[test]
    fn entries_in_closing_order(rt: HostRuntime) -> Result<(), Fail> {
        let mut table = Table::new(rt.alloc())?;
        assert_eq!(rt; read(b"(add\n(num 1)\n(num 2)\n)\n", &mut table), Ok(()));
        let entries = table.entries();
        assert!(rt; entries.len() == 3);
        assert_eq!(rt; (entries[0].line, entries[0].order), (2, 1));
        assert_eq!(rt; (entries[2].line, entries[2].order), (1, 0));
        Ok(())
    }
}
