// A full table, and small tables evaluated.
use crate::bags::{carry, find_route};
use crate::form::{Entry, Form};
use crate::limits::ROOM;
use crate::numbers::Figures;
use crate::scope::Scope;
use crate::table::Table;
use crate::terms::eval_term;
use std::test::Fail;

macro_rules! entries {
    ($($form:expr),*) => { [$(Entry { form: $form, line: 1, order: 0 }),*] };
}

#[test]
fn a_full_table_refuses(rt: HostRuntime) -> Result<(), Fail> {
    let mut table = Table::new(rt.alloc())?;
    let entry = Entry {
        form: Form::Lit { value: 7 },
        line: 1,
        order: 0,
    };
    for _ in 0..ROOM {
        let _ = table.push(entry);
    }
    assert!(rt; table.push(entry).is_err());
    assert_eq!(rt; table.len(), ROOM);
    table.clear();
    assert_eq!(rt; table.entries().len(), 0);
    Ok(())
}

// 3 where column 0 is below 5, else -2 times column 1.
#[test]
fn a_term_picks(rt: HostRuntime) -> Result<(), Fail> {
    let entries = entries![
        Form::Col { column: 0 },
        Form::Lit { value: 5 },
        Form::Less { left: 0, right: 1 },
        Form::Lit { value: 3 },
        Form::Lit { value: -2 },
        Form::Col { column: 1 },
        Form::Times { left: 4, right: 5 },
        Form::Pick {
            condition: 2,
            first: 3,
            second: 6
        }
    ];
    assert_eq!(rt; eval_term(&entries, 7, &[4, 9, 0, 0, 0, 0]), 3);
    assert_eq!(rt; eval_term(&entries, 7, &[5, 9, 0, 0, 0, 0]), -18);
    Ok(())
}

// let a = 10 in let b = a - setting 1 in a + b
#[test]
fn lets_nest(rt: HostRuntime) -> Result<(), Fail> {
    let entries = entries![
        Form::Num { value: 10 },
        Form::Var { index: 0 },
        Form::Setting { input: 1 },
        Form::Sub { left: 1, right: 2 },
        Form::Var { index: 1 },
        Form::Var { index: 0 },
        Form::Add { left: 4, right: 5 },
        Form::Let { bound: 3, body: 6 },
        Form::Let { bound: 0, body: 7 }
    ];
    let figures = Figures {
        entries: &entries,
        totals: &[0; ROOM],
        settings: &[1, 4],
    };
    assert_eq!(rt; figures.number(8, &Scope::new()), 16);
    Ok(())
}

// Column 0 becomes 8 in the rows of both sources whose column 0 is below 5.
#[test]
fn a_put_above_a_keep_above_a_pool(rt: HostRuntime) -> Result<(), Fail> {
    let entries = entries![
        Form::Bag { source: 0 },
        Form::Bag { source: 1 },
        Form::Pool {
            first: 0,
            second: 1
        },
        Form::Col { column: 0 },
        Form::Lit { value: 5 },
        Form::Less { left: 3, right: 4 },
        Form::Keep {
            bag: 2,
            condition: 5
        },
        Form::Lit { value: 8 },
        Form::Put {
            column: 0,
            bag: 6,
            term: 7
        }
    ];
    assert!(rt; find_route(&entries, 8, 2).is_none());
    let Some(route) = find_route(&entries, 8, 1) else {
        return Err(Fail::new("the second leaf"));
    };
    assert_eq!(rt; route.source(), 1);
    assert_eq!(rt;
        carry(&entries, &route, &[4, 1, 0, 0, 0, 0]),
        Some([8, 1, 0, 0, 0, 0])
    );
    assert_eq!(rt; carry(&entries, &route, &[5, 1, 0, 0, 0, 0]), None);
    Ok(())
}
