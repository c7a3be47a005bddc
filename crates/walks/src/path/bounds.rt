ghost use Rattle.std.specs.Prelude.{◌≡◌};
ghost use Rattle.designs.specs.Grids.{grid_of};
ghost use Rattle.walks.specs.Frontiers.{frontier_of, lesser_at};
ghost use Rattle.walks.specs.Walk.{least_of};

use super::Path;
use crate::level::Level;
use measures::amount::Amount;
use partials::rules::lesser_of;

impl<A: Amount> Path<A> {
    // The least of an amount and the bounds that the open nodes inherited. The deepest level comes first, and a level
    // counts unless all its children are taken.
    pub(crate) fn least_bound(&self, best: A) -> A
        ensures { result ≡ least_of A.Amount.kind best (frontier_of self.now) }
    {
        self.levels.iter().rev().fold(
            best,
            |least: A, level: &Level<A>| -> A
                ensures { result ≡ lesser_at A.Amount.kind (grid_of self.entry.now.design) least level.now }
            {
                if level.tried < level.node.child_count(&self.design) {
                    lesser_of(least, level.bound)
                } else {
                    least
                }
            },
        )
    }
}
