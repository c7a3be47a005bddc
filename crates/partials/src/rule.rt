ghost use Rattle.measures.specs.Amounts.{AtMost};
ghost use Rattle.std.specs.Prelude.{◌≡◌};
ghost use Rattle.designs.specs.Grids.{Grid, grid_of};
ghost use Rattle.designs.specs.Readings.{TwoRows, cost_of};
ghost use Rattle.partials.specs.Nodes.{partial_of};
ghost use Rattle.partials.specs.Partials.{Partial, DrawingOf, Completes};

use crate::node::Node;
use designs::design::Design;
use measures::amount::Amount;
use measures::measure::Measure;

// Answers an amount for a design and a partial drawing, at most the cost of every drawing that completes it.
pub trait BoundingRule<M: Measure> {
    ghost answered: { Self → Grid → Partial → M.Amount };

    fn answer(&self, design: &Design, node: &Node) -> M::Amount
        ensures { result ≡ answered self.now (grid_of design.now) (partial_of node.now) };

    ghost bounds: { (s : Self) (g : Grid) (p : Partial) (x : TwoRows) → DrawingOf g x → Completes p x → AtMost M.Amount.Amount.kind (answered s g p) (cost_of M.Amount.Amount.kind M.Measure.priced g x) };
}
