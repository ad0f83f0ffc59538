// A source of the program's own: one reading taken by hand.
ghost use Rattle.std.specs.Prelude.{◌≡◌, true, [], ◌∷◌, pos, slice_index_or};
ghost use Rattle.sources.specs.Shapes.{near};
ghost use Rattle.walkthrough.specs.Spots.{spot_meaning, spot_lawful};

use sources::Source;

// One row of two cells, each also the low and the high of its column.
#[derive(Clone, Copy)]
pub struct Spot {
    minute: i64,
    density: i64,
    ghost minute_near: { near minute ≡ true },
    ghost density_near: { near density ≡ true },
}

impl Spot {
    pub fn new(minute: u16, density: u16) -> Spot
        ensures { spot_meaning result.minute result.density ≡ spot_meaning (pos minute) (pos density) }
    {
        Spot {
            minute: i64::from(minute),
            density: i64::from(density),
        }
    }

    fn at(&self, column: usize) -> i64
        ensures { result ≡ slice_index_or (self.now.minute ∷ self.now.density ∷ []) column (pos 0) }
    {
        match column {
            0 => self.minute,
            1 => self.density,
            _ => 0,
        }
    }
}

impl Source for Spot {
    ghost meaning = { λ s. spot_meaning s.minute s.density };

    ghost lawful = { λ s. spot_lawful s.minute s.density s.minute_near s.density_near };

    fn width(&self) -> usize {
        2
    }

    fn limit(&self) -> usize {
        1
    }

    fn low(&self, column: usize) -> i64 {
        self.at(column)
    }

    fn high(&self, column: usize) -> i64 {
        self.at(column)
    }

    fn count(&self) -> usize {
        1
    }

    fn cell(&self, row: usize, column: usize) -> i64 {
        if row == 0 { self.at(column) } else { 0 }
    }
}
