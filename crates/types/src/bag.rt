// What the rules give a bag: its shape, and how far it moves with each input.
ghost use Rattle.std.specs.Prelude.{◌≡◌, ℕ, ◌+◌, ◌<◌, ◌≤◌, true, length, pos, IfOk, None, ◌==◌, slice_set};
ghost use Rattle.refusals.specs.Rules.{or_else};
ghost use Rattle.rules.specs.Amounts.{at_most};
ghost use Rattle.rules.specs.Catalogue.{faulty_input};
ghost use Rattle.rules.specs.Ranges.{most_rows};
ghost use Rattle.rules.specs.Typing.{bag_rule, index, place, pooled, replaced, scope_rule, sensitivity_bound, settle, source_type};
ghost use Rattle.sources.specs.Indexed.{listed};
ghost use Rattle.sources.specs.Shapes.{column, columns_of, max_rows, max_width, range};
ghost use Rattle.sources.specs.Unions.{hulls};
ghost use Rattle.types.specs.Faults.{told};
ghost use Rattle.types.specs.Shown.{BagGood, ZeroBehind, bag_shown};

use crate::fault::RuleFault;
use crate::limits::SENSITIVITY_BOUND;
use crate::place::place_in_scope;
use rules::amounts::Amounts;
use rules::catalogue::Catalogue;
use rules::ranges::hull;
use sources::{MAX_WIDTH, Range, Shape};
use std::array;

// Of the shape's columns the first `width` count. Its limit may be that of several sources together.
#[derive(Clone, Copy)]
pub struct TypedBag {
    pub shape: Shape,
    pub inputs: Amounts,
}

impl TypedBag {
    // All rows of a source.
    pub fn of_source(catalogue: &Catalogue, source: i64, line: usize) -> Result<TypedBag, RuleFault>
        ensures value { told bag_shown result ≡ settle (scope_rule line (place 2 source)) (source_type catalogue.now (index source)) }
        ensures good { faulty_input catalogue.now ≡ None → IfOk result (BagGood max_rows) }
    {
        let source = place_in_scope(source, 2, line)?;
        Ok(TypedBag::whole(catalogue, source))
    }

    // One column has another range. The array has to have the width: no field promises it, since `of_source` answers for a faulty catalogue too.
    #[tactic(auto, using(crate::proofs::Columns::length_columns))]
    pub fn with_column(&self, at: i64, range: Range, line: usize) -> Result<TypedBag, RuleFault>
        requires { self.now.shape.width ≤ max_width }
        ensures value { told bag_shown result ≡ settle (scope_rule line (place (length (columns_of self.now.shape)) at)) (replaced (bag_shown self.now) (index at) range) }
        ensures kept { IfOk result (λ x. (x.shape.width ≡ self.now.shape.width) × (x.shape.limit ≡ self.now.shape.limit) × (x.inputs ≡ self.now.inputs)) }
        ensures behind { IfOk result (λ x. ZeroBehind x.shape) }
    {
        let at = place_in_scope(at, self.shape.width, line)?;
        Ok(TypedBag {
            shape: replaced(&self.shape, at, range),
            inputs: self.inputs,
        })
    }

    // The rows of both.
    #[tactic(auto, using(crate::proofs::Columns::length_columns))]
    pub fn pooled(&self, other: &TypedBag, line: usize) -> Result<TypedBag, RuleFault>
        requires rows { self.now.shape.limit + other.now.shape.limit ≤ most_rows }
        requires first_small { at_most sensitivity_bound self.now.inputs ≡ true }
        requires second_small { at_most sensitivity_bound other.now.inputs ≡ true }
        ensures value { told bag_shown result ≡ settle (or_else (scope_rule line (length (columns_of self.now.shape) == length (columns_of other.now.shape))) (bag_rule line (pooled (bag_shown self.now) (bag_shown other.now)))) (pooled (bag_shown self.now) (bag_shown other.now)) }
        ensures kept { IfOk result (λ x. (x.shape.width ≡ self.now.shape.width) × (x.shape.limit ≡ self.now.shape.limit + other.now.shape.limit) × (at_most sensitivity_bound x.inputs ≡ true)) }
        ensures behind { IfOk result (λ x. ZeroBehind x.shape) }
    {
        if self.shape.width != other.shape.width {
            return Err(RuleFault::OutOfScope { line });
        }
        let inputs = self.inputs.added(other.inputs);
        if !inputs.are_at_most(SENSITIVITY_BOUND) {
            return Err(RuleFault::TooSensitive { line });
        }
        Ok(TypedBag {
            shape: united(&self.shape, &other.shape),
            inputs,
        })
    }

    // The ranges of its columns, lent.
    pub fn columns(&self) -> &[Range]
        requires { self.now.shape.width ≤ max_width }
        ensures { result.now ≡ columns_of self.now.shape }
    {
        front(&self.shape.columns, self.shape.width)
    }

    fn whole(catalogue: &Catalogue, source: usize) -> TypedBag
        requires { source < 2 }
        ensures value { bag_shown result ≡ source_type catalogue.now source }
        ensures good { faulty_input catalogue.now ≡ None → BagGood max_rows result }
    {
        TypedBag {
            shape: catalogue.sources[source],
            inputs: Amounts::one_at(source),
        }
    }
}

// The first `width` of the columns.
fn front(columns: &[Range; MAX_WIDTH], width: usize) -> &[Range]
    requires { width ≤ max_width }
    ensures { result.now ≡ listed (column columns.now) width }
{
    &columns[..width]
}

// A shape, one column of which has another range.
fn replaced(shape: &Shape, at: usize, range: Range) -> Shape
    requires narrow { shape.now.width ≤ max_width }
    requires inside { at < shape.now.width }
    ensures width { result.width ≡ shape.now.width }
    ensures limit { result.limit ≡ shape.now.limit }
    ensures columns { columns_of result ≡ slice_set (columns_of shape.now) at range }
    ensures behind { ZeroBehind result }
{
    Shape {
        columns: array::from_fn(|j| {
            if j == at {
                range
            } else if j < shape.width {
                shape.columns[j]
            } else {
                Range::ZERO
            }
        }),
        ..*shape
    }
}

// The shape of the rows of both.
fn united(a: &Shape, b: &Shape) -> Shape
    requires same { a.now.width ≡ b.now.width }
    requires rows { a.now.limit + b.now.limit ≤ most_rows }
    ensures width { result.width ≡ a.now.width }
    ensures limit { result.limit ≡ a.now.limit + b.now.limit }
    ensures columns { columns_of result ≡ hulls (columns_of a.now) (columns_of b.now) }
    ensures behind { ZeroBehind result }
{
    Shape {
        width: a.width,
        limit: a.limit + b.limit,
        columns: united_columns(&a.columns, &b.columns, a.width),
    }
}

// The hulls of the first `width` columns, and nothing behind them: what stands there is not looked at.
fn united_columns(
    a: &[Range; MAX_WIDTH],
    b: &[Range; MAX_WIDTH],
    width: usize,
) -> [Range; MAX_WIDTH]
    ensures columns { listed (column result) width ≡ hulls (listed (column a.now) width) (listed (column b.now) width) }
    ensures behind { (j : ℕ) → width ≤ j → column result j ≡ range (pos 0) (pos 0) }
{
    array::from_fn(|j| if j < width {
        hull(a[j], b[j])
    } else {
        Range::ZERO
    })
}
