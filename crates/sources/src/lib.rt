// Sources of rows: what a source is, logs, ramps and unions of sources, and their rows as arrays.
#![tactic(auto)]

mod interface;
mod logs;
mod ramps;
mod rows;
mod shapes;
mod unions;

pub use interface::Source;
pub use logs::Log;
pub use ramps::{Line, Ramp};
pub use rows::padded_row;
pub use shapes::{COLUMN_BOUND, MAX_ROWS, MAX_WIDTH, Range, Shape, SourceFault};
pub use unions::Union;
