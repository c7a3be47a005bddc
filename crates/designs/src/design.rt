ghost use Rattle.std.specs.Prelude.{◌≡◌, ℕ, ◌<◌, ◌≤◌, false, length, slice_index, slice_index_or};
ghost use Rattle.measures.specs.Prices.{is_trunk};
ghost use Rattle.measures.specs.declared.link.Class.TheVariants.{Ordinary};

use crate::cell::Cells;
use crate::side::SideSize;

pub mod linking;
pub mod pricing;
pub mod reading;

// A network design: 1 to 24 switches a side, and a cell for each left with each right switch.
// A cell has at most 255 strands, and without strands it is ordinary.
#[derive(Clone, Copy)]
pub struct Design {
    left: SideSize,
    right: SideSize,
    cells: Cells,
    ghost whole: { (length cells.strands ≡ 576) × (length cells.classes ≡ 576) },
    ghost bytes: { (k : ℕ) → slice_index cells.strands k < 256 },
    ghost quiet: { (k : ℕ) → slice_index cells.strands k ≡ 0 → is_trunk (slice_index_or cells.classes k Ordinary) ≡ false },
}
