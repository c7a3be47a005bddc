ghost use Rattle.std.specs.Prelude.{◌≡◌, not, if◌then◌else◌};
ghost use Rattle.designs.specs.Grids.{grid_of};
ghost use Rattle.designs.specs.Readings.{rows_of, first_rows, cost_of};

use crate::design::Design;
use crate::drawing::Drawing;
use measures::amount::Amount;
use measures::measure::Measure;

// The best drawing so far, and what it costs.
#[derive(Clone, Copy)]
pub struct Best<A> {
    pub drawing: Drawing,
    pub cost: A,
}

impl<A: Amount> Best<A> {
    // Takes a drawing of this cost if it costs less; answers whether it does.
    pub fn take(&mut self, drawing: Drawing, cost: A) -> bool
        ensures taken { result ≡ not (A.Amount.kind.at_most self.old.cost cost) }
        ensures best { self.new ≡ (if A.Amount.kind.at_most self.old.cost cost then self.old else record { drawing = drawing; cost = cost }) }
    {
        if self.cost.is_at_most(cost) {
            return false;
        }
        *self = Best { drawing, cost };
        true
    }
}

// Both rows of a design in number order.
pub fn first_best<M: Measure>(design: &Design) -> Best<M::Amount>
    ensures rows { rows_of result.drawing ≡ first_rows (grid_of design.now) }
    ensures cost { result.cost ≡ cost_of M.Amount.Amount.kind M.Measure.priced (grid_of design.now) (first_rows (grid_of design.now)) }
{
    let drawing = Drawing::in_number_order(design);
    let cost = design.cost::<M>(&drawing);
    Best { drawing, cost }
}
