use measures::link::Link;
use measures::measure::Measure;
use scripts::fault::ScriptFault;
use walks::report::Report;

// What an accepted command told. An offer's cost is told whether it was taken or not, so the flag stands beside it;
// a search that stands alone answers the same two in a struct, as it tells nothing else.
#[derive(Drop)]
pub enum Telling<M: Measure> {
    Sized { left: u8, right: u8 },
    Linked { left: u8, right: u8, link: Link },
    Closed,
    Searched { asked: u32, opened: u32 },
    Offered { taken: bool, cost: M::Amount },
    Reported(Report<M::Amount>),
}

// What a call answers: what it told or why it refused, and the next command's byte.
#[derive(Drop)]
pub struct Reply<M: Measure> {
    pub told: Result<Telling<M>, ScriptFault>,
    pub next: usize,
}

// What a call on a line answers: that, and how many bytes it wrote. The line is the caller's, so what was
// written of it is a number.
#[derive(Drop)]
pub struct LineReply<M: Measure> {
    pub reply: Reply<M>,
    pub wrote: usize,
}
