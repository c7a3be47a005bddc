ghost use Rattle.std.specs.Prelude.{◌≡◌, ℕ, ◌+◌, ◌<◌, length, drop, All};
ghost use Rattle.designs.specs.Cells.{crossing};
ghost use Rattle.designs.specs.Costs.{cost, over_each, over_two, between, CostByRightPairs};
ghost use Rattle.designs.specs.Crossings.{CountedOnce, SharersNeverCross};
ghost use Rattle.designs.specs.Grids.{grid_of, cell_in};
ghost use Rattle.designs.specs.Readings.{row_of, rows_of, cost_of};

use super::Design;
use crate::cell::Cell;
use crate::drawing::Drawing;
use crate::joining::over_two;
use crate::row::Row;
use measures::amount::Amount;
use measures::link::Link;
use measures::measure::Measure;

// The price of a crossing of two cells: zero where one of them has no link.
pub fn crossing_price<M: Measure>(x: Cell, y: Cell) -> M::Amount
    ensures { result ≡ crossing M.Amount.Amount.kind M.Measure.priced x y }
{
    if x.strands == 0 || y.strands == 0 {
        return <M::Amount as Amount>::nothing();
    }
    M::price(Link::from(x), Link::from(y))
}

impl Design {
    // What the crossings between links of u and links of v cost, u before v.
    pub fn price_between<M: Measure>(&self, left: &[u8], u: u8, v: u8) -> M::Amount
        requires left { All (λ a. a < 24) left.now }
        requires first { u < 24 }
        requires second { v < 24 }
        ensures { result ≡ between M.Amount.Amount.kind M.Measure.priced (cell_in (grid_of self.now)) left.now u v }
    {
        over_two(
            left,
            |a: u8, c: u8| -> M::Amount
                requires lefts { (a < 24) × (c < 24) }
                requires rights { (u < 24) × (v < 24) }
            { crossing_price::<M>(self.cell(a, v), self.cell(c, u)) },
        )
    }

    // The cost of a drawing with these rows, and what is counted in it. What is proved of it by hand stands here, and not in
    // the public function.
    fn cost_of_rows<M: Measure>(&self, left: &Row, right: &Row) -> M::Amount
        ensures value { result ≡ cost M.Amount.Amount.kind M.Measure.priced (cell_in (grid_of self.now)) (row_of left.now) (row_of right.now) }
        ensures counted { CountedOnce (cell_in (grid_of self.now)) (row_of left.now) (row_of right.now) }
        ensures sharers { SharersNeverCross (row_of left.now) (row_of right.now) }
        ensures by_pairs { CostByRightPairs M.Amount.Amount.kind M.Measure.priced (cell_in (grid_of self.now)) (row_of left.now) (row_of right.now) }
    {
        let left = left.switches();
        over_two(
            right.switches(),
            |u: u8, v: u8| -> M::Amount
                requires lefts { All (λ a. a < 24) left.now }
                requires rights { (u < 24) × (v < 24) }
            { self.price_between::<M>(left, u, v) },
        )
    }

    // The cost of a drawing: the join of the prices of its crossings.
    pub fn cost<M: Measure>(&self, drawing: &Drawing) -> M::Amount
        ensures value { result ≡ cost_of M.Amount.Amount.kind M.Measure.priced (grid_of self.now) (rows_of drawing.now) }
        ensures counted { CountedOnce (cell_in (grid_of self.now)) (rows_of drawing.now).left (rows_of drawing.now).right }
        ensures sharers { SharersNeverCross (rows_of drawing.now).left (rows_of drawing.now).right }
        ensures by_pairs { CostByRightPairs M.Amount.Amount.kind M.Measure.priced (cell_in (grid_of self.now)) (rows_of drawing.now).left (rows_of drawing.now).right }
    {
        self.cost_of_rows::<M>(&drawing.left, &drawing.right)
    }
}
