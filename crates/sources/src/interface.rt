// A source of rows, whatever holds them.
ghost use Rattle.std.specs.Prelude.{◌≡◌};
ghost use Rattle.sources.specs.Source.{Meaning, Lawful, low_of, high_of, count_of, cell_of};

// Asking changes nothing, and a missing row or column gives 0. Rows and columns count from 0.
pub trait Source {
    // The shape and the rows that the answers tell of.
    ghost meaning: { Self → Meaning };

    ghost lawful: { (s : Self) → Lawful (meaning s) };

    // The number of columns.
    fn width(&self) -> usize
        ensures { result ≡ (meaning self.now).width };

    // The most rows that the source may have.
    fn limit(&self) -> usize
        ensures { result ≡ (meaning self.now).limit };

    fn low(&self, column: usize) -> i64
        ensures { result ≡ low_of (meaning self.now) column };

    fn high(&self, column: usize) -> i64
        ensures { result ≡ high_of (meaning self.now) column };

    // The number of rows.
    fn count(&self) -> usize
        ensures { result ≡ count_of (meaning self.now) };

    fn cell(&self, row: usize, column: usize) -> i64
        ensures { result ≡ cell_of (meaning self.now) row column };
}
