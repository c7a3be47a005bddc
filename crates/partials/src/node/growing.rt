ghost use Rattle.std.specs.Prelude.{◌≡◌, ℕ, ◌<◌, ◌≤◌, length, All};
ghost use Rattle.std.specs.Option.{option_map};
ghost use Rattle.designs.specs.Grids.{grid_of};
ghost use Rattle.designs.specs.Readings.{rows_of, rows_named};
ghost use Rattle.partials.specs.Nodes.{partial_of};
ghost use Rattle.partials.specs.Names.{names_of};
ghost use Rattle.partials.specs.Partials.{has, nothing_placed, unplaced};

use super::Node;
use crate::names::Names;
use designs::design::Design;
use designs::drawing::Drawing;

// Whether a row names a switch. By `any`, so that only the reading of rows calls `contains`, and has it in place.
fn names(row: &[u8], switch: u8) -> bool
    ensures { result ≡ has row.now switch }
{
    row.iter().any(|name| *name == switch)
}

impl Node {
    // Nothing placed.
    pub fn root() -> Node
        ensures { partial_of result ≡ nothing_placed }
    {
        Node {
            left: Names::new(),
            right: Names::new(),
        }
    }

    // The placed left switches in their order.
    pub fn left(&self) -> &[u8]
        ensures list { result.now ≡ (partial_of self.now).placed }
        ensures below { All (λ a. a < 24) result.now }
        ensures few { length result.now ≤ 24 }
    {
        self.left.as_slice()
    }

    // The beginning of the right row.
    pub fn prefix(&self) -> &[u8]
        ensures list { result.now ≡ (partial_of self.now).prefix }
        ensures below { All (λ v. v < 24) result.now }
        ensures few { length result.now ≤ 24 }
    {
        self.right.as_slice()
    }

    // The right switches that are not in the prefix, lowest number first. A loop and no `collect`, for which `Names` would
    // need a FromIterator with a law for this one place.
    pub fn unplaced(&self, design: &Design) -> Names<24>
        ensures { names_of result ≡ unplaced (grid_of design.now) (partial_of self.now) }
    {
        let mut free = Names::new();
        for v in 0..design.right_size() {
            if !names(self.prefix(), v) {
                free.push(v);
            }
        }
        free
    }

    // The drawing, if it is a whole one of the design.
    pub fn drawing(&self, design: &Design) -> Option<Drawing>
        ensures { option_map rows_of result ≡ rows_named (grid_of design.now) (partial_of self.now).placed (partial_of self.now).prefix }
    {
        Drawing::of(design, self.left(), self.prefix())
    }
}
