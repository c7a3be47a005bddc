ghost use Rattle.std.specs.Prelude.{◌≡◌, ◌<◌};
ghost use Rattle.designs.specs.Cells.{link_in, index};

use measures::link::{Class, Link};

// What stands between a left and a right switch: no strands, or one link. No strands with class ordinary is a value of its
// own by a project rule; an `Option<Link>` would still have links of no strands to rule out. It has the fields of a Link, but
// may have no link where a Link is one, so what prices links is not called with a cell by mistake.
#[derive(Clone, Copy)]
pub struct Cell {
    pub strands: u8,
    pub class: Class,
}

// A cell as a link, of no strands where it has none.
impl From<Cell> for Link {
    ghost from_gives = { λ cell r. r ≡ link_in cell };

    fn from(cell: Cell) -> Link {
        Link {
            strands: cell.strands,
            class: cell.class,
        }
    }
}

// A cell for each of 24 left with each of 24 right switches: left switch a and right switch b have place 24 a + b.
// Two arrays and not one of cells: a project rule has a design's plain inner record start from constant arrays, more than
// one, of 576 elements each.
#[derive(Clone, Copy)]
pub struct Cells {
    pub strands: [u8; 576],
    pub classes: [Class; 576],
}

// Where the cell of a left and a right switch is kept.
pub(crate) fn cell_place(left: u8, right: u8) -> usize
    ensures { result ≡ index left right }
{
    usize::from(left) * 24 + usize::from(right)
}
