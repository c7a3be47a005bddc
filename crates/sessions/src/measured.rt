use designs::design::Design;
use measures::measure::Measure;
use walks::walk::Search;

pub mod calling;
pub mod carrying;
mod commands;

// What a session that has a measure and a rule is doing.
#[derive(Drop)]
pub enum Condition<M: Measure> {
    Set,
    Filling(Design),
    Searching(Search<M>),
}

// A session with a measure and a rule, as an accepted M leaves it and as it goes on from there.
#[derive(Drop)]
pub struct MeasuredSession<M: Measure, R: Drop> {
    rule: R,
    condition: Condition<M>,
}
