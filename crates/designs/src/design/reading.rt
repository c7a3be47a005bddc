ghost use Rattle.std.specs.Prelude.{◌≡◌, ℕ, ◌<◌, ◌≤◌};
ghost use Rattle.designs.specs.Grids.{grid_of, cell_in};

use super::Design;
use crate::cell::{Cell, cell_place};
use crate::side::SideSize;

impl Design {
    // How many left switches there are, and how many right ones.
    pub(crate) fn sizes(&self) -> (SideSize, SideSize)
        ensures lefts { result.0.count ≡ (grid_of self.now).lefts }
        ensures rights { result.1.count ≡ (grid_of self.now).rights }
    {
        (self.left, self.right)
    }

    // How many left switches there are. Each side has its getter: one for both would take the side as an argument at each
    // call, which is no plainer. A caller gets a byte, as its loops need, so the limits of `SideSize` are said here.
    pub fn left_size(&self) -> u8
        ensures value { result ≡ (grid_of self.now).lefts }
        ensures bound { (1 ≤ result) × (result ≤ 24) }
    {
        self.left.count
    }

    // How many right switches there are.
    pub fn right_size(&self) -> u8
        ensures value { result ≡ (grid_of self.now).rights }
        ensures bound { (1 ≤ result) × (result ≤ 24) }
    {
        self.right.count
    }

    // The cell of a left and a right switch. Switches are bytes, as rows and scripts have them: a type for one below 24 would
    // be made again from each byte of a row, with the same proof each time.
    pub fn cell(&self, left: u8, right: u8) -> Cell
        requires left { left < 24 }
        requires right { right < 24 }
        ensures { result ≡ cell_in (grid_of self.now) left right }
    {
        let at = cell_place(left, right);
        Cell {
            strands: self.cells.strands[at],
            class: self.cells.classes[at],
        }
    }
}
