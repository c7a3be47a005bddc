ghost use Rattle.designs.specs.Grids.{grid_of};
ghost use Rattle.walks.specs.Paths.{OnPath};

use crate::level::Level;
use arrayvec::ArrayVec;
use designs::design::Design;

pub mod bounds;
pub mod walking;

// Where a walk is in the tree of a design: the nodes from the root down to the one whose children are opened.
#[derive(Drop)]
pub struct Path<A> {
    pub(crate) design: Design,
    levels: ArrayVec<Level<A>, 48>,
    ghost lawful: { ∥ OnPath (grid_of design) 0 levels.items ∥₁ },
}
