ghost use Rattle.std.specs.Prelude.{◌≡◌, ℕ, ◌+◌, ◌<◌, ◌≤◌, [], ◌∷◌, ◌++◌, length, MatchOption, OnSome, slice_index};
ghost use Rattle.std.specs.Option.{option_map};
ghost use Rattle.designs.specs.Grids.{grid_of};
ghost use Rattle.designs.specs.Rows.{times};
ghost use Rattle.partials.specs.Nodes.{partial_of};
ghost use Rattle.partials.specs.Partials.{unplaced};
ghost use Rattle.partials.specs.Tree.{put_at, placings, addings, children, nth, child_count};

use super::Node;
use crate::names::Names;
use designs::design::Design;

impl Node {
    // The next left switch put in at a place. The casts stay, here and below: the check proves that nothing is lost, and
    // TryFrom would add a branch that never comes.
    fn put(&self, place: u8) -> Node
        requires few { length (partial_of self.now).placed < 24 }
        requires place { place ≤ length (partial_of self.now).placed }
        ensures { partial_of result ≡ record { placed = put_at place (length (partial_of self.now).placed) (partial_of self.now).placed; prefix = [] } }
    {
        let mut left = self.left;
        left.insert(usize::from(place), self.left().len() as u8);
        Node {
            left,
            right: Names::new(),
        }
    }

    // A right switch added to the prefix.
    fn add(&self, v: u8) -> Node
        requires below { v < 24 }
        requires apart { times v (partial_of self.now).prefix ≡ 0 }
        ensures { partial_of result ≡ record { placed = (partial_of self.now).placed; prefix = (partial_of self.now).prefix ++ (v ∷ []) } }
    {
        let mut right = self.right;
        right.push(v);
        Node {
            left: self.left,
            right,
        }
    }

    // The next left switch at the last place but so many. That few places have a child is handed on by each step: a walk
    // counts the children it took in a byte.
    fn with_left(&self, at: u8) -> Option<Node>
        requires { length (partial_of self.now).placed < 24 }
        ensures child { option_map partial_of result ≡ nth (placings (length (partial_of self.now).placed) (length (partial_of self.now).placed) (partial_of self.now).placed) at }
        ensures few { OnSome result (at < 48) }
    {
        let placed = self.left().len() as u8;
        let place = placed.checked_sub(at)?;
        Some(self.put(place))
    }

    // The unplaced right switch behind so many others, if there is one.
    fn nth_unplaced(&self, design: &Design, at: u8) -> Option<u8>
        ensures { MatchOption result (length (unplaced (grid_of design.now) (partial_of self.now)) ≤ at) (λ v. (at < length (unplaced (grid_of design.now) (partial_of self.now))) × (v ≡ slice_index (unplaced (grid_of design.now) (partial_of self.now)) at)) }
    {
        self.unplaced(design)
            .as_slice()
            .get(usize::from(at))
            .copied()
    }

    // That switch added to the prefix.
    fn with_right(&self, design: &Design, at: u8) -> Option<Node>
        ensures child { option_map partial_of result ≡ nth (addings (partial_of self.now) (unplaced (grid_of design.now) (partial_of self.now))) at }
        ensures few { OnSome result (at < 48) }
    {
        let v = self.nth_unplaced(design, at)?;
        Some(self.add(v))
    }

    // The child behind so many others, if there is one: the next left switch at the last place but so many,
    // or the left row full, the unplaced right switch behind so many others.
    pub fn child(&self, design: &Design, at: u8) -> Option<Node>
        ensures child { option_map partial_of result ≡ nth (children (grid_of design.now) (partial_of self.now)) at }
        ensures few { OnSome result (at < 48) }
    {
        if self.left().len() < usize::from(design.left_size()) {
            self.with_left(at)
        } else {
            self.with_right(design, at)
        }
    }

    // How many children a partial drawing of the design has: a place more than left switches placed,
    // or the left row full, one for each right switch that is not in the prefix.
    pub fn child_count(&self, design: &Design) -> u8
        ensures { result ≡ child_count (grid_of design.now) (partial_of self.now) }
    {
        let placed = self.left().len() as u8;
        if placed < design.left_size() {
            placed + 1
        } else {
            design
                .right_size()
                .saturating_sub(self.prefix().len() as u8)
        }
    }
}
