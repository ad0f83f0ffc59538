// The bench plant, against its own catalogue and against others.
ghost use Rattle.std.specs.Prelude.{◌≡◌};
ghost use Rattle.evaluation.specs.Bench.{bench_catalogue};

use crate::{Plant, PlantFault, evaluate, fit};
use forms::form::{Entry, Form};
use rules::catalogue::Catalogue;
use sources::{Line, Ramp, Range, Shape, SourceFault};
use std::test::Fail;

// Column 0, column 1, and columns that count for nothing.
macro_rules! columns {
    ($first:expr, $second:expr, $rest:expr) => {
        [$first, $second, $rest, $rest, $rest, $rest]
    };
}

macro_rules! range {
    ($low:expr, $high:expr) => {
        Range {
            low: $low,
            high: $high,
        }
    };
}

macro_rules! line {
    ($start:expr, $step:expr) => {
        Line {
            start: $start,
            step: $step,
        }
    };
}

// Each form stands behind its parts, with its opening line and its number in opening order.
macro_rules! entries {
    ($($line:expr, $order:expr => $form:expr;)*) => {
        [$(Entry { form: $form, line: $line, order: $order }),*]
    };
}

fn bench() -> Catalogue
    ensures { result ≡ bench_catalogue }
{
    Catalogue {
        sources: [
            Shape {
                width: 2,
                limit: 8,
                columns: columns!(range!(0, 7), range!(1130, 1200), Range::ZERO),
            },
            Shape {
                width: 1,
                limit: 3,
                columns: columns!(range!(20, 30), range!(-1, 1), Range::ZERO),
            },
        ],
        settings: [range!(1000, 1180), range!(5, 10)],
    }
}

// Source 0 has 8 rows, source 1 has 3.
fn sources() -> Result<(Ramp, Ramp), SourceFault> {
    let mut first = Ramp::new();
    first.open(2, 8, columns!(line!(0, 1), line!(1130, 10), Line::ZERO))?;
    let mut second = Ramp::new();
    second.open(1, 3, columns!(line!(20, 5), Line::ZERO, Line::ZERO))?;
    Ok((first, second))
}

// What the bench plant is told by a catalogue.
fn told(catalogue: Catalogue) -> Result<Result<(), PlantFault>, SourceFault> {
    let (first, second) = sources()?;
    let plant = Plant {
        first: &first,
        second: &second,
        settings: [1180, 5],
    };
    Ok(fit(&catalogue, &plant))
}

#[test]
fn the_bench_plant_fits(rt: HostRuntime) -> Result<(), Fail> {
    assert_eq!(rt; told(bench())?, Ok(()));
    Ok(())
}

#[test]
fn shapes_are_refused(rt: HostRuntime) -> Result<(), Fail> {
    let mut wider = bench();
    wider.sources[0].columns[1].high = 1201;
    wider.settings[0].high = 0;
    assert_eq!(rt; told(wider)?, Err(PlantFault::Shape { source: 0 }));
    let mut longer = bench();
    longer.sources[1].limit = 4;
    assert_eq!(rt; told(longer)?, Err(PlantFault::Shape { source: 1 }));
    Ok(())
}

#[test]
fn settings_are_refused(rt: HostRuntime) -> Result<(), Fail> {
    let mut under = bench();
    under.settings[0].high = 1179;
    under.settings[1].low = 6;
    assert_eq!(rt; told(under)?, Err(PlantFault::Setting { setting: 0 }));
    let mut above = bench();
    above.settings[1].low = 6;
    assert_eq!(rt; told(above)?, Err(PlantFault::Setting { setting: 1 }));
    Ok(())
}

// How many rows of source 0 have less than 1180 in column 1, and the sum of column 0 of source 1.
#[test]
fn a_count_and_a_sum(rt: HostRuntime) -> Result<(), Fail> {
    let entries = entries! {
        4, 3 => Form::Bag { source: 0 };
        6, 5 => Form::Col { column: 1 };
        7, 6 => Form::Lit { value: 1180 };
        5, 4 => Form::Less { left: 1, right: 2 };
        3, 2 => Form::Keep { bag: 0, condition: 3 };
        2, 1 => Form::Count { bag: 4 };
        12, 8 => Form::Bag { source: 1 };
        13, 9 => Form::Col { column: 0 };
        11, 7 => Form::Sum { low: -100, high: 100, bag: 6, term: 7 };
        1, 0 => Form::Add { left: 5, right: 8 };
    };
    let (first, second) = sources()?;
    let plant = Plant {
        first: &first,
        second: &second,
        settings: [1180, 5],
    };
    let catalogue = bench();
    match fit(&catalogue, &plant) {
        Ok(()) => {
            assert_eq!(rt; evaluate(&entries, &plant), 80);
            Ok(())
        },
        Err(_) => Err(Fail::new("the bench plant fits")),
    }
}
