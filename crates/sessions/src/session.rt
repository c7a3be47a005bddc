ghost use Rattle.std.specs.Prelude.{◌≡◌};
ghost use Rattle.std.specs.Result.{result_err};

use crate::measured::MeasuredSession;
use crate::rule::Rule;
use crate::telling::LineReply;
use measures::measure::Measure;
use measures::strands::ByStrands;
use measures::trunks::ByTrunks;
use scripts::fault::ScriptFault;

pub mod calling;

// A session: fresh, or with the measure and the rule that its M chose. A measure is a type and chosen at run time, so each
// has a variant, and each variant an arm.
#[derive(Drop)]
pub enum Session {
    Fresh,
    ByStrands(MeasuredSession<ByStrands, Rule>),
    ByTrunks(MeasuredSession<ByTrunks, Rule>),
}

// What a call answers: why it refused, if it did, the next command's byte, and how many bytes of the lent line it wrote.
// The line is the caller's, so what was written of it is a number.
#[derive(Clone, Copy, PartialEq, Eq, Debug)]
pub struct Answer {
    pub refused: Option<ScriptFault>,
    pub next: usize,
    pub wrote: usize,
}

impl<M: Measure> From<LineReply<M>> for Answer {
    ghost from_gives = { λ line a. a ≡ record { refused = result_err line.reply.told; next = line.reply.next; wrote = line.wrote } };

    fn from(LineReply { reply, wrote }: LineReply<M>) -> Answer {
        Answer {
            refused: reply.told.err(),
            next: reply.next,
            wrote,
        }
    }
}
