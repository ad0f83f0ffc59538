// The distance of the rows of two sources, of any kinds.
ghost use Rattle.std.specs.Prelude.{◌≡◌};
ghost use Rattle.bags.specs.Distance.{distance, Pairs};
ghost use Rattle.bags.specs.Laws.{Bounding, Steady, TwoSided};

use crate::merging::shared_rows;
use crate::plain::sorted_rows;
use sources::{MAX_ROWS, MAX_WIDTH, Source};

// Over all different rows, the positive difference of their counts: a row changed counts 2, and a row more 1.
// Rows of different widths are different rows.
// For n rows of both together it asks each source once for each cell, and compares and moves rows O(n log n) times.
// It cannot want for memory: a source has at most 4,096 rows of at most 6 cells, so that the copies stand on the
// stack, less than 400 kB.
pub fn distance<A: Source, B: Source>(first: &A, second: &B) -> usize
    ensures value { result ≡ distance (A.Source.meaning first.now).rows (B.Source.meaning second.now).rows }
    ensures steady { Steady distance }
    ensures bounding { Bounding distance }
    ensures sides { TwoSided }
{
    rows_apart(first, second)
}

// The rows of both that pair off with none of the other.
fn rows_apart<A: Source, B: Source>(first: &A, second: &B) -> usize
    ensures { result ≡ distance (A.Source.meaning first.now).rows (B.Source.meaning second.now).rows }
{
    let common = common_rows(first, second);
    (first.count() - common) + (second.count() - common)
}

// How many rows the two sources share.
fn common_rows<A: Source, B: Source>(first: &A, second: &B) -> usize
    ensures { Pairs result (A.Source.meaning first.now).rows (B.Source.meaning second.now).rows }
{
    if first.width() != second.width() {
        return 0;
    }
    let mut first_space = [[0; MAX_WIDTH]; MAX_ROWS];
    let mut second_space = [[0; MAX_WIDTH]; MAX_ROWS];
    shared_rows(
        sorted_rows(first, &mut first_space),
        sorted_rows(second, &mut second_space),
    )
}
