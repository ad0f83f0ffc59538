// What a query is checked against: the shapes of both sources and the ranges of both settings.
ghost use Rattle.std.specs.Prelude.{◌≡◌};
ghost use Rattle.rules.specs.Catalogue.{faulty_input, setting_sound, source_sound};

use crate::ranges::is_bounded;
use sources::{Range, Shape};

// The ends of a setting's range lie within plus and minus this.
pub const SETTING_BOUND: u64 = 1_000_000;

// Plain data that may be faulty.
#[derive(Clone, Copy)]
pub struct Catalogue {
    pub sources: [Shape; 2],
    pub settings: [Range; 2],
}

impl Catalogue {
    // The first input at which the catalogue is faulty: 0 and 1 are the sources, 2 and 3 the settings.
    pub fn faulty_input(&self) -> Option<usize>
        ensures { result ≡ faulty_input self.now }
    {
        let source = self
            .sources
            .iter()
            .position(|shape| !is_source_sound(shape));
        let setting = self
            .settings
            .iter()
            .position(|range| !is_setting_sound(*range));
        source.or(setting.map(|k| 2 + k))
    }
}

// A sound shape with room for a row.
fn is_source_sound(shape: &Shape) -> bool
    ensures { result ≡ source_sound shape.now }
{
    shape.is_sound() && shape.limit >= 1
}

fn is_setting_sound(range: Range) -> bool
    ensures { result ≡ setting_sound range }
{
    is_bounded(SETTING_BOUND, range) && range.low <= range.high
}
