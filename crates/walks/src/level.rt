ghost use Rattle.std.specs.Prelude.{◌≡◌};
ghost use Rattle.partials.specs.Nodes.{partial_of};
ghost use Rattle.partials.specs.Partials.{nothing_placed};

use measures::amount::Amount;
use partials::node::Node;

// A node on the way down from the root, its bound, and how many of its children were taken.
#[derive(Clone, Copy)]
pub struct Level<A> {
    pub(crate) node: Node,
    pub(crate) bound: A,
    pub(crate) tried: u8,
}

// What the places behind the deepest level hold: the root, at no cost. By hand, since a derive would ask a Default of the
// amount.
impl<A: Amount> Default for Level<A> {
    ghost is_default = { λ x. (partial_of x.node ≡ nothing_placed) × (x.bound ≡ A.Amount.kind.zero) × (x.tried ≡ 0) };

    fn default() -> Level<A> {
        Level {
            node: Node::root(),
            bound: A::nothing(),
            tried: 0,
        }
    }
}

// An open node: it waits, with its parent's bound.
#[derive(Clone, Copy)]
pub struct Waiting<A> {
    pub(crate) node: Node,
    pub(crate) inherited: A,
}
