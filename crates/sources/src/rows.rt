// Rows of any source as plain arrays.
ghost use Rattle.std.specs.Prelude.{◌≡◌, ◌<◌, [], slice_index_or};
ghost use Rattle.sources.specs.Source.{count_of, padded};

use crate::interface::Source;
use crate::shapes::MAX_WIDTH;

// The cells of a row, each asked for once, then 0 in the columns that its source has not. The source's width is
// passed in, so that a caller can ask for it once for all rows.
pub fn padded_row<S: Source>(source: &S, width: usize, row: usize) -> [i64; MAX_WIDTH]
    requires wide { width ≡ (S.Source.meaning source.now).width }
    requires there { row < count_of (S.Source.meaning source.now) }
    ensures { result ≡ padded (slice_index_or (S.Source.meaning source.now).rows row []) }
{
    let mut cells = [0; MAX_WIDTH];
    for (column, cell) in cells[..width].iter_mut().enumerate() {
        *cell = source.cell(row, column);
    }
    cells
}
