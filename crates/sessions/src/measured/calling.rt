ghost use Rattle.std.specs.Prelude.{◌≡◌, length, OnErr};
ghost use Rattle.sessions.specs.Calls.{called};
ghost use Rattle.scripts.specs.Scripts.{read_command, next_byte};
ghost use Rattle.sessions.specs.Events.{event_of};
ghost use Rattle.sessions.specs.Runs.{GoesOnLawfully};
ghost use Rattle.sessions.specs.Stages.{stage_of, set};
ghost use Rattle.sessions.specs.Texts.{event_line, if_room, Writes};

use super::{Condition, MeasuredSession};
use crate::telling::{LineReply, Reply};
use crate::writing::write_answer;
use measures::measure::{Measure, PrintingMeasure};
use partials::rule::BoundingRule;
use scripts::command::{Command, next_after, read_command};

impl<M: Measure, R: BoundingRule<M> + Drop> MeasuredSession<M, R> {
    // A session with this rule, as an accepted M leaves it.
    pub fn new(rule: R) -> MeasuredSession<M, R>
        ensures rule { result.rule ≡ rule }
        ensures stage { stage_of result.condition ≡ set }
    {
        MeasuredSession {
            rule,
            condition: Condition::Set,
        }
    }

    // Carries out the command at a byte of the script, for a line with this much room. The three stay parameters, as in a
    // session's call. That a refusal changes nothing, and no call the rule, compares before with after: no field can say it.
    pub fn call(&mut self, script: &[u8], place: usize, room: usize) -> Reply<M>
        ensures told { event_of result.told ≡ (called M.Amount.Amount.kind M.Measure.priced (R.BoundingRule.answered self.old.rule) (stage_of self.old.condition) script.now place room).event }
        ensures next { result.next ≡ next_byte script.now place (read_command script.now place room) }
        ensures stage { stage_of self.new.condition ≡ (called M.Amount.Amount.kind M.Measure.priced (R.BoundingRule.answered self.old.rule) (stage_of self.old.condition) script.now place room).stage }
        ensures refused { OnErr result.told (self.new ≡ self.old) }
        ensures rule { self.new.rule ≡ self.old.rule }
        ensures law { GoesOnLawfully M.Amount.Amount.kind M.Measure.priced (R.BoundingRule.answered self.old.rule) (stage_of self.old.condition) (event_of result.told) (stage_of self.new.condition) }
    {
        match read_command(script, place, room) {
            Err(fault) => Reply {
                told: Err(fault),
                next: next_after(fault, place, script.len()),
            },
            Ok(Command { letter, next, .. }) => {
                let told = self.carry_out(letter, place, &script[place + 1..next]);
                Reply { told, next }
            }
        }
    }
}

impl<P: PrintingMeasure, R: BoundingRule<P> + Drop> MeasuredSession<P, R> {
    // The same, written into the lent line.
    pub fn call_on_line(&mut self, script: &[u8], place: usize, line: &mut [u8]) -> LineReply<P>
        ensures told { event_of result.reply.told ≡ (called P.Amount.Amount.kind P.Measure.priced (R.BoundingRule.answered self.old.rule) (stage_of self.old.condition) script.now place (length line.old)).event }
        ensures next { result.reply.next ≡ next_byte script.now place (read_command script.now place (length line.old)) }
        ensures writes { Writes line.old line.new result.wrote (if_room (length line.old) (event_line P.PrintingMeasure.written (event_of result.reply.told))) }
        ensures stage { stage_of self.new.condition ≡ (called P.Amount.Amount.kind P.Measure.priced (R.BoundingRule.answered self.old.rule) (stage_of self.old.condition) script.now place (length line.old)).stage }
        ensures refused { OnErr result.reply.told (self.new ≡ self.old) }
        ensures rule { self.new.rule ≡ self.old.rule }
        ensures law { GoesOnLawfully P.Amount.Amount.kind P.Measure.priced (R.BoundingRule.answered self.old.rule) (stage_of self.old.condition) (event_of result.reply.told) (stage_of self.new.condition) }
    {
        let reply = self.call(script, place, line.len());
        let wrote = write_answer::<P>(line, &reply.told);
        LineReply { reply, wrote }
    }
}
