ghost use Rattle.std.specs.Prelude.{◌≡◌, ◌<◌, [], ◌∷◌, ◌++◌, IfSome, MatchOption};
ghost use Rattle.designs.specs.Grids.{grid_of};
ghost use Rattle.partials.specs.Nodes.{partial_of};
ghost use Rattle.partials.specs.Tree.{children};
ghost use Rattle.walks.specs.Frontiers.{frontier_of, depth_of, MayFollow, Leads};
ghost use Rattle.walks.specs.Walk.{all_open};

use super::Path;
use crate::level::{Level, Waiting};
use arrayvec::ArrayVec;
use designs::design::Design;
use measures::amount::Amount;
use partials::node::Node;

impl<A: Amount> Path<A> {
    // A path of no level: nothing is open.
    pub(crate) fn new(design: Design) -> Path<A>
        ensures open { Leads design [] result }
        ensures depth { depth_of result ≡ 0 }
    {
        Path {
            design,
            levels: ArrayVec::new(),
        }
    }

    // Puts a node's children before all open nodes. `MayFollow` speaks of path and node together, so neither type can hold
    // it.
    pub(crate) fn push(&mut self, node: Node, bound: A)
        requires room { depth_of self.old < 48 }
        requires deep { MayFollow self.old node }
        ensures { Leads self.old.design (all_open bound (children (grid_of self.old.design) (partial_of node)) ++ frontier_of self.old) self.new }
    {
        self.levels.push(Level {
            node,
            bound,
            tried: 0,
        });
    }

    // Takes the first open node. The next child is an Option taken apart by let else, otherwise the walk goes back one level,
    // as a project rule asks. Taking a node leaves the design, which is compared before and after, so no field can say it.
    pub(crate) fn next(&mut self) -> Option<Waiting<A>>
        ensures taken { MatchOption result ((frontier_of self.old ≡ []) × (frontier_of self.new ≡ [])) (λ o. frontier_of self.old ≡ record { node = partial_of o.node; inherited = o.inherited } ∷ frontier_of self.new) }
        ensures deep { IfSome result (λ o. MayFollow self.new o.node) }
        ensures design { self.new.design ≡ self.old.design }
    {
        // Lent once for all turns: what is written through a loan of a field in each turn would not be known afterwards.
        let levels = &mut self.levels;
        while let Some(level) = levels.last_mut() {
            let Some(node) = level.node.child(&self.design, level.tried) else {
                levels.pop();
                continue;
            };
            level.tried += 1;
            return Some(Waiting {
                node,
                inherited: level.bound,
            });
        }
        None
    }
}
