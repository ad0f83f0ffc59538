// What the programs know of the pans of the works.
#![tactic(auto)]

use sources::{Range, Shape};

// The log of a day: the minute of the day, and the density in kilograms per cubic metre, every half hour.
pub const DAY: Shape = Shape {
    width: 2,
    limit: 48,
    columns: [
        Range { low: 0, high: 1439 },
        Range {
            low: 1000,
            high: 1300,
        },
        Range::ZERO,
        Range::ZERO,
        Range::ZERO,
        Range::ZERO,
    ],
};
