// Whether a plant fits a catalogue.
ghost use Rattle.std.specs.Prelude.{◌≡◌};
ghost use Rattle.refusals.specs.Rules.{reason};
ghost use Rattle.sources.specs.Shapes.{column};
ghost use Rattle.rules.specs.Ranges.{same_range};
ghost use Rattle.evaluation.specs.Fits.{FitsExactly, fit_rule, same_shape, settings_rule};
ghost use Rattle.evaluation.specs.Plants.{plant_of, plant_refusal};

use crate::plant::{Plant, PlantFault};
use rules::catalogue::Catalogue;
use sources::{Range, Shape, Source};

// The first reason why the plant does not fit the catalogue, if there is one: both sources are looked at before the
// settings. It asks a source for its width, its limit and the range of each column once.
pub fn fit<A: Source, B: Source>(
    catalogue: &Catalogue,
    plant: &Plant<A, B>,
) -> Result<(), PlantFault>
    ensures reply { reason plant_refusal result ≡ fit_rule catalogue.now (plant_of A.Source.meaning B.Source.meaning plant.now) }
    ensures exactly { FitsExactly catalogue.now (plant_of A.Source.meaning B.Source.meaning plant.now) result }
{
    check_plant(catalogue, plant)
}

fn check_plant<A: Source, B: Source>(
    catalogue: &Catalogue,
    plant: &Plant<A, B>,
) -> Result<(), PlantFault>
    ensures { reason plant_refusal result ≡ fit_rule catalogue.now (plant_of A.Source.meaning B.Source.meaning plant.now) }
{
    if !has_shape(plant.first, &catalogue.sources[0]) {
        return Err(PlantFault::Shape { source: 0 });
    }
    if !has_shape(plant.second, &catalogue.sources[1]) {
        return Err(PlantFault::Shape { source: 1 });
    }
    check_settings(catalogue, &plant.settings)
}

// Whether the source has the shape's width and limit, and the range of each column below the width.
fn has_shape<S: Source>(source: &S, shape: &Shape) -> bool
    ensures { result ≡ same_shape shape.now (S.Source.meaning source.now) }
{
    source.width() == shape.width
        && source.limit() == shape.limit
        && (0..shape.width).all(|j| has_range(source, j, shape.columns[j]))
}

fn has_range<S: Source>(source: &S, j: usize, range: Range) -> bool
    ensures { result ≡ same_range (column (S.Source.meaning source.now).columns j) range }
{
    source.low(j) == range.low && source.high(j) == range.high
}

fn check_settings(catalogue: &Catalogue, settings: &[i64; 2]) -> Result<(), PlantFault>
    ensures { reason plant_refusal result ≡ settings_rule catalogue.now settings.now }
{
    let ranges = catalogue.settings.iter();
    let outside = ranges
        .zip(settings)
        .position(|(range, value)| !range.holds(*value));
    outside.map_or(Ok(()), |setting| Err(PlantFault::Setting { setting }))
}
