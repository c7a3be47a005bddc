ghost use Rattle.std.specs.Prelude.{◌≡◌, ◌<◌, All};
ghost use Rattle.designs.specs.Costs.{over_each, over_two};
ghost use Rattle.designs.specs.Grids.{grid_of};
ghost use Rattle.partials.specs.Names.{names_of};
ghost use Rattle.partials.specs.Nodes.{partial_of};
ghost use Rattle.partials.specs.Partials.{unplaced};
ghost use Rattle.partials.specs.Rules.{lesser, known, over_settled, settled_price, lesser_price};

use crate::names::Names;
use crate::node::Node;
use crate::prices::pair_price;
use designs::design::Design;
use designs::joining::{over_each, over_two};
use measures::amount::Amount;
use measures::measure::Measure;

// The lesser of two amounts, the first where they are level. An amount is no Ord, so it has no min.
pub fn lesser_of<A: Amount>(x: A, y: A) -> A
    ensures { result ≡ lesser A.Amount.kind x y }
{
    if x.is_at_most(y) { x } else { y }
}

// The known price of right switches u before v, of a pair's two prices, which a project rule has given together. Design and
// node stay two parameters: a struct of the two would stand in every clause with one name more to read through. Switches are
// bytes here too, as `Design::cell` says.
fn known<M: Measure>(design: &Design, node: &Node, u: u8, v: u8) -> M::Amount
    requires first { u < 24 }
    requires second { v < 24 }
    ensures { result ≡ known M.Amount.Amount.kind M.Measure.priced (grid_of design.now) (partial_of node.now) u v }
{
    let (uv, _) = pair_price::<M>(design, node.left(), u, v);
    uv
}

// The lesser of the two known prices of right switches u and v.
fn lesser_known<M: Measure>(design: &Design, node: &Node, u: u8, v: u8) -> M::Amount
    requires first { u < 24 }
    requires second { v < 24 }
    ensures { result ≡ lesser M.Amount.Amount.kind (known M.Amount.Amount.kind M.Measure.priced (grid_of design.now) (partial_of node.now) u v) (known M.Amount.Amount.kind M.Measure.priced (grid_of design.now) (partial_of node.now) v u) }
{
    let (uv, vu) = pair_price::<M>(design, node.left(), u, v);
    lesser_of(uv, vu)
}

// The known prices of a right switch u before each of some others.
fn known_with<M: Measure>(design: &Design, node: &Node, u: u8, others: &Names<24>) -> M::Amount
    requires { u < 24 }
    ensures { result ≡ over_each M.Amount.Amount.kind (known M.Amount.Amount.kind M.Measure.priced (grid_of design.now) (partial_of node.now) u) (names_of others.now) }
{
    over_each(
        others.as_slice(),
        |v: u8| -> M::Amount
            requires { (u < 24) × (v < 24) }
        { known::<M>(design, node, u, v) },
    )
}

// The known price of every settled pair of a node, whose unplaced right switches are given.
fn settled_beside<M: Measure>(design: &Design, node: &Node, free: &Names<24>) -> M::Amount
    ensures { result ≡ over_settled M.Amount.Amount.kind (known M.Amount.Amount.kind M.Measure.priced (grid_of design.now) (partial_of node.now)) (partial_of node.now).prefix (names_of free.now) }
{
    let prefix = node.prefix();
    let within = over_two(
        prefix,
        |u: u8, v: u8| -> M::Amount
            requires { (u < 24) × (v < 24) }
        { known::<M>(design, node, u, v) },
    );
    let beside = over_each(
        prefix,
        |u: u8| -> M::Amount
            requires { u < 24 }
        { known_with::<M>(design, node, u, free) },
    );
    within.joined(beside)
}

// The lesser price of each two right switches.
fn lesser_pairs<M: Measure>(design: &Design, node: &Node, free: &Names<24>) -> M::Amount
    ensures { result ≡ over_two M.Amount.Amount.kind (λ u v. lesser M.Amount.Amount.kind (known M.Amount.Amount.kind M.Measure.priced (grid_of design.now) (partial_of node.now) u v) (known M.Amount.Amount.kind M.Measure.priced (grid_of design.now) (partial_of node.now) v u)) (names_of free.now) }
{
    over_two(
        free.as_slice(),
        |u: u8, v: u8| -> M::Amount
            requires { (u < 24) × (v < 24) }
        { lesser_known::<M>(design, node, u, v) },
    )
}

// The known price of every settled pair of a node.
pub fn settled_price<M: Measure>(design: &Design, node: &Node) -> M::Amount
    ensures { result ≡ settled_price M.Amount.Amount.kind M.Measure.priced (grid_of design.now) (partial_of node.now) }
{
    settled_beside::<M>(design, node, &node.unplaced(design))
}

// That, and the lesser price of every other pair.
pub fn lesser_price<M: Measure>(design: &Design, node: &Node) -> M::Amount
    ensures { result ≡ lesser_price M.Amount.Amount.kind M.Measure.priced (grid_of design.now) (partial_of node.now) }
{
    let free = node.unplaced(design);
    let settled = settled_beside::<M>(design, node, &free);
    settled.joined(lesser_pairs::<M>(design, node, &free))
}
