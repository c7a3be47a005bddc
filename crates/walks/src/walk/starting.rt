ghost use Rattle.std.specs.Prelude.{◌≡◌};
ghost use Rattle.designs.specs.Grids.{grid_of};
ghost use Rattle.designs.specs.Readings.{rows_of, first_rows, cost_of};
ghost use Rattle.partials.specs.Nodes.{partial_of};
ghost use Rattle.partials.specs.Partials.{PartialOf, DrawingOf, Completes, nothing_placed};
ghost use Rattle.walks.specs.Moves.{Started};

use super::Search;
use crate::path::Path;
use designs::best::{Best, first_best};
use designs::design::Design;
use measures::amount::Amount;
use measures::measure::Measure;
use partials::node::Node;
use partials::rule::BoundingRule;

// The root with nothing placed, and the drawing with both rows in number order with its cost.
fn beginning<M: Measure>(design: &Design) -> (Node, Best<M::Amount>)
    ensures root { partial_of result.0 ≡ nothing_placed }
    ensures first { rows_of result.1.drawing ≡ first_rows (grid_of design.now) }
    ensures partial { PartialOf (grid_of design.now) (partial_of result.0) }
    ensures drawing { DrawingOf (grid_of design.now) (rows_of result.1.drawing) }
    ensures within { Completes (partial_of result.0) (rows_of result.1.drawing) }
    ensures cost { result.1.cost ≡ cost_of M.Amount.Amount.kind M.Measure.priced (grid_of design.now) (rows_of result.1.drawing) }
{
    (Node::root(), first_best::<M>(design))
}

impl<M: Measure> Search<M> {
    // A walk below any root, from a first drawing below it. What is proved of it by hand stands here, and not in the public
    // function.
    fn start_with<R: BoundingRule<M>>(
        design: Design,
        rule: &R,
        root: Node,
        best: Best<M::Amount>,
    ) -> Search<M>
        requires root { PartialOf (grid_of design) (partial_of root) }
        requires drawing { DrawingOf (grid_of design) (rows_of best.drawing) }
        requires within { Completes (partial_of root) (rows_of best.drawing) }
        requires cost { best.cost ≡ cost_of M.Amount.Amount.kind M.Measure.priced (grid_of design) (rows_of best.drawing) }
        ensures { Started (grid_of design) (R.BoundingRule.answered rule.now) (partial_of root) (rows_of best.drawing) result }
    {
        let bound = rule.answer(&design, &root);
        let mut path = Path::new(design);
        if !best.cost.is_at_most(bound) {
            path.push(root, bound);
        }
        Search {
            path,
            best,
            opened: 0,
        }
    }

    // A walk of the whole tree of a design; nothing of an earlier walk is kept. The root has nothing placed, and the
    // first drawing has both rows in number order.
    pub fn start<R: BoundingRule<M>>(design: Design, rule: &R) -> Search<M>
        ensures { Started (grid_of design) (R.BoundingRule.answered rule.now) nothing_placed (first_rows (grid_of design)) result }
    {
        let (root, best) = beginning::<M>(&design);
        Search::start_with(design, rule, root, best)
    }
}
