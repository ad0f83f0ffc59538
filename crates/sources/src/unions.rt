// The union of two sources, of any kinds.
ghost use Rattle.std.specs.Prelude.{◌≡◌};
ghost use Rattle.sources.specs.Unions.{joint_limit, union, union_lawful, Unites};

use crate::interface::Source;
use crate::shapes::MAX_ROWS;

// The rows of the first, then those of the second. Where the widths differ or the limits pass 4,096 together,
// it has the first's columns, limit 0 and no rows. Each call asks both sources whether they join.
#[derive(Clone, Copy, Drop)]
pub struct Union<A, B> {
    pub first: A,
    pub second: B,
}

impl<A: Source, B: Source> Union<A, B> {
    // The limits added, where the two sources join, and what the union answers then and else.
    fn joint_limit(&self) -> Option<usize>
        ensures value { result ≡ joint_limit (A.Source.meaning self.now.first) (B.Source.meaning self.now.second) }
        ensures answers { Unites (A.Source.meaning self.now.first) (B.Source.meaning self.now.second) (union (A.Source.meaning self.now.first) (B.Source.meaning self.now.second)) result }
    {
        let limit = self.first.limit() + self.second.limit();
        (self.first.width() == self.second.width() && limit <= MAX_ROWS).then_some(limit)
    }
}

impl<A: Source, B: Source> Source for Union<A, B> {
    ghost meaning = { λ u. union (A.Source.meaning u.first) (B.Source.meaning u.second) };

    ghost lawful = { λ u. union_lawful (A.Source.meaning u.first) (B.Source.meaning u.second) (A.Source.lawful u.first) (B.Source.lawful u.second) };

    fn width(&self) -> usize {
        self.first.width()
    }

    fn limit(&self) -> usize {
        self.joint_limit().unwrap_or(0)
    }

    fn low(&self, column: usize) -> i64 {
        let low = self.first.low(column);
        match self.joint_limit() {
            Some(_) => low.min(self.second.low(column)),
            None => low,
        }
    }

    // As `low`, at the other end: what both share is only this shape.
    fn high(&self, column: usize) -> i64 {
        let high = self.first.high(column);
        match self.joint_limit() {
            Some(_) => high.max(self.second.high(column)),
            None => high,
        }
    }

    fn count(&self) -> usize {
        match self.joint_limit() {
            Some(_) => self.first.count() + self.second.count(),
            None => 0,
        }
    }

    fn cell(&self, row: usize, column: usize) -> i64 {
        if self.joint_limit().is_none() {
            return 0;
        }
        let count = self.first.count();
        if row < count {
            self.first.cell(row, column)
        } else {
            self.second.cell(row - count, column)
        }
    }
}
