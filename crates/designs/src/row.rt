ghost use Rattle.std.specs.Prelude.{◌≡◌, ℕ, ◌<◌, ◌≤◌, length, take, slice_index};
ghost use Rattle.designs.specs.Rows.{times};

use crate::side::SideSize;

pub mod reading;

// An order of the switches of one side, filled up with 255 to 24 bytes: those of a script's row, 255s and all, which a list
// of names would not keep. A row is copied, which vectors of fixed capacity cannot be, so the size stands beside the bytes.
#[derive(Clone, Copy)]
pub struct Row {
    size: SideSize,
    switches: [u8; 24],
    ghost whole: { length switches ≡ 24 },
    ghost once: { (k : ℕ) → k < size.count → times k (take size.count switches) ≡ 1 },
    ghost filled: { (k : ℕ) → size.count ≤ k → k < 24 → slice_index switches k ≡ 255 },
    ghost below: { (k : ℕ) → k < size.count → slice_index switches k < size.count },
}
