ghost use Rattle.std.specs.Prelude.{◌≤◌};

use crate::path::Path;
use designs::best::Best;
use measures::measure::Measure;

pub mod offering;
pub mod opening;
pub mod reporting;
pub mod running;
pub mod starting;

// A branch and bound of a design's tree: the best drawing so far and its cost, the nodes opened, and where the walk is.
#[derive(Drop)]
pub struct Search<M: Measure> {
    path: Path<M::Amount>,
    best: Best<M::Amount>,
    opened: u32,
    ghost few: { opened ≤ 1000000000 },
}
