ghost use Rattle.std.specs.Prelude.{◌≡◌, ℕ, ◌&&◌, length, if◌then◌else◌, Some, None, Decides};
ghost use Rattle.std.specs.Option.{option_map};
ghost use Rattle.designs.specs.Grids.{grid_of};
ghost use Rattle.designs.specs.Results.{on_ok};
ghost use Rattle.designs.specs.Readings.{rows_of, rows_named, read_rows, first_rows};
ghost use Rattle.designs.specs.Rows.{Order, is_order};

use super::Drawing;
use crate::design::Design;
use crate::fault::RowFault;
use crate::row::Row;
use crate::side::SideSize;

// The drawing with these rows, if they are orders of so many switches. What is proved of it by hand stands here, and not in
// the public function. `Row::read` and `Row::of` take one size each, so a struct of the two would be made only to be taken
// apart.
fn with_rows(left: &[u8], right: &[u8], lefts: SideSize, rights: SideSize) -> Option<Drawing>
    ensures value { option_map rows_of result ≡ (if is_order lefts.count left.now && is_order rights.count right.now then Some (record { left = left.now; right = right.now }) else None) }
    ensures meaning { (Decides (is_order lefts.count left.now) (Order lefts.count left.now)) × (Decides (is_order rights.count right.now) (Order rights.count right.now)) }
{
    let left = Row::of(left, lefts)?;
    let right = Row::of(right, rights)?;
    Some(Drawing { left, right })
}

impl Drawing {
    // Reads a drawing of the design from 48 bytes: two rows of 24.
    pub fn read(design: &Design, bytes: &[u8]) -> Result<Drawing, RowFault>
        requires { length bytes.now ≡ 48 }
        ensures { on_ok rows_of result ≡ read_rows (grid_of design.now) bytes.now }
    {
        let (lefts, rights) = design.sizes();
        let (left, right) = bytes.split_at(24);
        let left = Row::read(left, lefts).ok_or(RowFault::LeftRow)?;
        let right = Row::read(right, rights).ok_or(RowFault::RightRow)?;
        Ok(Drawing { left, right })
    }

    // The drawing of the design with these rows; none where one is not an order of its side's switches.
    pub fn of(design: &Design, left: &[u8], right: &[u8]) -> Option<Drawing>
        ensures value { option_map rows_of result ≡ rows_named (grid_of design.now) left.now right.now }
        ensures meaning { (Decides (is_order (grid_of design.now).lefts left.now) (Order (grid_of design.now).lefts left.now)) × (Decides (is_order (grid_of design.now).rights right.now) (Order (grid_of design.now).rights right.now)) }
    {
        let (lefts, rights) = design.sizes();
        with_rows(left, right, lefts, rights)
    }

    // The drawing of the design with both rows in number order.
    pub fn in_number_order(design: &Design) -> Drawing
        ensures { rows_of result ≡ first_rows (grid_of design.now) }
    {
        let (lefts, rights) = design.sizes();
        Drawing {
            left: Row::in_number_order(lefts),
            right: Row::in_number_order(rights),
        }
    }
}
