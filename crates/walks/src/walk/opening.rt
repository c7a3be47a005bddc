ghost use Rattle.std.specs.Prelude.{◌≡◌, ◌<◌, true, false, IfNone, MatchOption};
ghost use Rattle.designs.specs.Readings.{rows_of};
ghost use Rattle.partials.specs.Nodes.{partial_of};
ghost use Rattle.partials.specs.Rules.{greater};
ghost use Rattle.partials.specs.Tree.{is_whole, drawn};
ghost use Rattle.walks.specs.Frontiers.{depth_of, MayFollow};
ghost use Rattle.walks.specs.Searches.{GoesTo, walk_of, grid_in, cost_in};
ghost use Rattle.walks.specs.Walk.{visit, open_one};

use super::Search;
use designs::drawing::Drawing;
use measures::amount::Amount;
use measures::measure::Measure;
use partials::node::Node;
use partials::rule::BoundingRule;

// The greater of two amounts, the first where they are level. An amount is no Ord, so it has no max. On a tie both give the
// first, so `lesser_of` turned round is not this.
fn greater_of<A: Amount>(x: A, y: A) -> A
    ensures { result ≡ greater A.Amount.kind x y }
{
    if y.is_at_most(x) { x } else { y }
}

impl<M: Measure> Search<M> {
    // The drawing that a node is, if it is a whole one. Tried within `visit`: these two clauses are proved by hand, and then
    // not found.
    fn whole(&self, node: &Node) -> Option<Drawing>
        requires { MayFollow self.now.path node.now }
        ensures drawing { MatchOption result (is_whole (grid_in self.now) (partial_of node.now) ≡ false) (λ x. (is_whole (grid_in self.now) (partial_of node.now) ≡ true) × (rows_of x ≡ drawn (partial_of node.now))) }
        ensures room { IfNone result (depth_of self.now.path < 48) }
    {
        node.drawing(&self.path.design)
    }

    // Prunes a node, compares it if it is a whole drawing, or puts its children first.
    fn visit(&mut self, node: Node, bound: M::Amount)
        requires { MayFollow self.old.path node }
        ensures { GoesTo self.old self.new (visit M.Amount.Amount.kind (grid_in self.old) (cost_in self.old) bound (partial_of node) (walk_of self.old)) }
    {
        if self.best.cost.is_at_most(bound) {
            return;
        }
        let Some(drawing) = self.whole(&node) else {
            self.path.push(node, bound);
            return;
        };
        self.take_better(drawing);
    }

    // Opens the first open node, if there is one: its bound is the greater of its parent's and the rule's answer.
    pub(super) fn open_one<R: BoundingRule<M>>(&mut self, rule: &R)
        requires { self.old.opened < 1000000000 }
        ensures { GoesTo self.old self.new (open_one M.Amount.Amount.kind (grid_in self.old) (cost_in self.old) (R.BoundingRule.answered rule.now (grid_in self.old)) (walk_of self.old)) }
    {
        let Some(next) = self.path.next() else {
            return;
        };
        let answer = rule.answer(&self.path.design, &next.node);
        self.opened += 1;
        self.visit(next.node, greater_of(next.inherited, answer));
    }
}
