ghost use Rattle.std.specs.Prelude.{ℕ, ◌≤◌};
ghost use Rattle.designs.specs.Rows.{times};
ghost use Rattle.partials.specs.Names.{names_of};

use crate::names::Names;

pub mod children;
pub mod growing;

// A partial drawing: the first left switches in some order, and a beginning of the right row, without a switch twice.
#[derive(Clone, Copy)]
pub struct Node {
    left: Names<24>,
    right: Names<24>,
    ghost once: { (v : ℕ) → times v (names_of right) ≤ 1 },
}
