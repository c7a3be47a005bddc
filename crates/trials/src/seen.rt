use crate::plain::{Price, Rows};
use measures::measure::Measure;
use measures::pair::Pair;
use measures::strands::ByStrands;
use measures::sum::Sum;
use measures::trunks::ByTrunks;
use walks::walk::Search;

// An amount of either measure, compared by its first part and then by the second.
#[derive(Clone, Copy, PartialEq, Eq, PartialOrd, Ord, Debug)]
pub struct Key {
    pub first: u64,
    pub second: u64,
}

// A measure whose amounts are seen from outside, and its amount of a plain cost. `From` would bind the amount's type at
// each use, which is no plainer.
pub trait Keyed: Measure {
    fn key(amount: Self::Amount) -> Key;

    fn of(price: Price) -> Key;
}

impl Keyed for ByStrands {
    fn key(amount: Sum) -> Key {
        Key {
            first: amount.value,
            second: 0,
        }
    }

    fn of(price: Price) -> Key {
        Key {
            first: price.all,
            second: 0,
        }
    }
}

impl Keyed for ByTrunks {
    fn key(amount: Pair) -> Key {
        Key {
            first: amount.trunk,
            second: amount.rest,
        }
    }

    fn of(price: Price) -> Key {
        Key {
            first: price.trunk,
            second: price.rest,
        }
    }
}

// What a report says, in amounts of either measure. Its own type: a report is generic in the amount and has no equality. The
// flag stands beside what is told either way.
#[derive(Clone, Copy, PartialEq, Eq, Debug)]
pub struct Seen {
    pub done: bool,
    pub opened: u32,
    pub cost: Key,
    pub floor: Key,
    pub size: Option<u32>,
    pub rows: Rows,
}

impl Seen {
    // What is to be seen after the offer of a drawing: that drawing, if it is better than the best.
    pub fn after_offer(self, rows: Rows, cost: Key) -> Seen {
        if cost < self.cost {
            Seen {
                done: cost == self.floor,
                cost,
                rows,
                ..self
            }
        } else {
            self
        }
    }
}

// What the report of a walk says now.
pub fn see<M: Keyed>(walk: &Search<M>) -> Seen {
    let report = walk.report();
    Seen {
        done: report.done,
        opened: report.opened,
        cost: M::key(report.cost),
        floor: M::key(report.floor),
        size: report.size,
        rows: Rows::of(
            report.drawing.left.switches(),
            report.drawing.right.switches(),
        ),
    }
}
