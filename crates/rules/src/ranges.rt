// Ranges of values: what an operation makes of the ranges of its parts. The bounds of the rules keep every end within 64 bits.
// They are asked for at each operation: what it makes may be past them, so that a type of ranges within would be another.
ghost use Rattle.std.specs.Prelude.{◌≡◌, ◌*◌, ◌^◌, ◌<◌, ◌≤◌, true, unsigned_abs};
ghost use Rattle.forms.specs.Limits.{number_bound, term_bound};
ghost use Rattle.sources.specs.Unions.{hull};
ghost use Rattle.trees.specs.Size.{literal_bound};
ghost use Rattle.rules.specs.Ranges.{bounded, clips, counts, differences, greater, lesser, most_rows, point, products, scaled, sums, totals};

use forms::numbers::clip;
use sources::Range;

pub fn point(value: i64) -> Range
    ensures { result ≡ point value }
{
    Range {
        low: value,
        high: value,
    }
}

pub fn sums(a: Range, b: Range) -> Range
    requires first { bounded number_bound a ≡ true }
    requires second { bounded number_bound b ≡ true }
    ensures { result ≡ sums a b }
{
    Range {
        low: a.low + b.low,
        high: a.high + b.high,
    }
}

pub fn differences(a: Range, b: Range) -> Range
    requires first { bounded number_bound a ≡ true }
    requires second { bounded number_bound b ≡ true }
    ensures { result ≡ differences a b }
{
    Range {
        low: a.low - b.high,
        high: a.high - b.low,
    }
}

pub fn products(a: Range, b: Range) -> Range
    requires first { bounded term_bound a ≡ true }
    requires second { bounded term_bound b ≡ true }
    ensures { result ≡ products a b }
{
    hull(multiples(a.low, b), multiples(a.high, b))
}

pub fn scaled(factor: i64, a: Range) -> Range
    requires factor { unsigned_abs factor ≤ literal_bound }
    requires range { bounded number_bound a ≡ true }
    ensures { result ≡ scaled factor a }
{
    multiples(factor, a)
}

// Both ends are written out in `sums`, here and in `greater`: a function that took what is done at an end, with its
// contract, would be longer than what it saves.
pub fn lesser(a: Range, b: Range) -> Range
    ensures { result ≡ lesser a b }
{
    Range {
        low: a.low.min(b.low),
        high: a.high.min(b.high),
    }
}

pub fn greater(a: Range, b: Range) -> Range
    ensures { result ≡ greater a b }
{
    Range {
        low: a.low.max(b.low),
        high: a.high.max(b.high),
    }
}

// From the lesser low to the greater high.
pub fn hull(a: Range, b: Range) -> Range
    ensures { result ≡ hull a b }
{
    Range {
        low: lesser(a, b).low,
        high: greater(a, b).high,
    }
}

pub fn clips(low: i64, high: i64, a: Range) -> Range
    ensures { result ≡ clips low high a }
{
    Range {
        low: clip(low, high, a.low),
        high: clip(low, high, a.high),
    }
}

// How many rows there can be.
pub fn counts(rows: usize) -> Range
    requires { rows ≤ most_rows }
    ensures { result ≡ counts rows }
{
    // `as`, since i64 has no From of usize.
    Range {
        low: 0,
        high: rows as i64,
    }
}

// What up to so many rows add up to, each with something from low to high.
pub fn totals(rows: usize, low: i64, high: i64) -> Range
    requires rows { rows ≤ most_rows }
    requires low { unsigned_abs low ≤ literal_bound }
    requires high { unsigned_abs high ≤ literal_bound }
    ensures { result ≡ totals rows low high }
{
    // As above.
    let n = rows as i64;
    let all = Range {
        low: n * low,
        high: n * high,
    };
    hull(Range::ZERO, all)
}

// Whether both ends are within the bound of 0.
pub fn is_bounded(bound: u64, a: Range) -> bool
    ensures { result ≡ bounded bound a }
{
    a.low.unsigned_abs() <= bound && a.high.unsigned_abs() <= bound
}

fn multiples(factor: i64, a: Range) -> Range
    requires low { unsigned_abs factor * unsigned_abs a.low < 2 ^ 63 }
    requires high { unsigned_abs factor * unsigned_abs a.high < 2 ^ 63 }
    ensures { result ≡ scaled factor a }
{
    let (x, y) = (factor * a.low, factor * a.high);
    Range {
        low: x.min(y),
        high: x.max(y),
    }
}
