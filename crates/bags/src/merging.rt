// Two sorted bags of rows, walked together.
ghost use Rattle.std.specs.Cmp.Lexicographic.{slice_cmp};
ghost use Rattle.std.specs.Ordering.{int_cmp};
ghost use Rattle.std.specs.Prelude.{◌≡◌, IsSorted};
ghost use Rattle.bags.specs.Distance.{shared};

use crate::plain::Plain;
use std::cmp::Ordering;

// How many rows the two bags share, in one pass over both.
pub fn shared_rows(mut xs: &[Plain], mut ys: &[Plain]) -> usize
    requires first { IsSorted (slice_cmp int_cmp) xs.now }
    requires second { IsSorted (slice_cmp int_cmp) ys.now }
    ensures { result ≡ shared xs.now ys.now }
{
    let mut count = 0;
    while let ([x, xs_left @ ..], [y, ys_left @ ..]) = (xs, ys) {
        match x.cmp(y) {
            Ordering::Less => xs = xs_left,
            Ordering::Greater => ys = ys_left,
            Ordering::Equal => {
                xs = xs_left;
                ys = ys_left;
                count += 1;
            }
        }
    }
    count
}
