ghost use Rattle.std.specs.Prelude.{◌≡◌, [], length, Some, OnErr};
ghost use Rattle.scripts.specs.Scripts.{width_of};
ghost use Rattle.sessions.specs.Events.{event_of};
ghost use Rattle.sessions.specs.Stages.{stage_of, size_step, carried};

use super::commands::{offer_drawing, put_link, read_design, run_search};
use super::{Condition, MeasuredSession};
use crate::telling::Telling;
use measures::measure::Measure;
use partials::rule::BoundingRule;
use scripts::fault::ScriptFault;
use walks::walk::Search;

impl<M: Measure, R: BoundingRule<M> + Drop> MeasuredSession<M, R> {
    // D: begins a design, whatever is held.
    fn begin_design(&mut self, place: usize, operands: &[u8]) -> Result<Telling<M>, ScriptFault>
        requires { length operands.now ≡ 2 }
        ensures told { event_of result ≡ (size_step (stage_of self.old.condition) place operands.now).event }
        ensures stage { stage_of self.new.condition ≡ (size_step (stage_of self.old.condition) place operands.now).stage }
        ensures refused { OnErr result (self.new ≡ self.old) }
        ensures rule { self.new.rule ≡ self.old.rule }
    {
        let design = read_design(place, operands)?;
        self.condition = Condition::Filling(design);
        let (left, right) = (operands[0], operands[1]);
        Ok(Telling::Sized { left, right })
    }

    // C: closes the design that is filled, and starts a search of it. Apart from the other commands, each of which would pay at
    // its entry for the room of a search.
    fn close_design(&mut self, place: usize) -> Result<Telling<M>, ScriptFault>
        ensures told { event_of result ≡ (carried M.Amount.Amount.kind M.Measure.priced (R.BoundingRule.answered self.old.rule) (stage_of self.old.condition) 67 place []).event }
        ensures stage { stage_of self.new.condition ≡ (carried M.Amount.Amount.kind M.Measure.priced (R.BoundingRule.answered self.old.rule) (stage_of self.old.condition) 67 place []).stage }
        ensures refused { OnErr result (self.new ≡ self.old) }
        ensures rule { self.new.rule ≡ self.old.rule }
    {
        match &self.condition {
            Condition::Set => Err(ScriptFault::WrongCondition { place }),
            Condition::Searching(_) => Err(ScriptFault::WrongCondition { place }),
            Condition::Filling(design) => {
                self.condition = Condition::Searching(Search::start(*design, &self.rule));
                Ok(Telling::Closed)
            }
        }
    }

    // Carries out a command that has all its operands. That a refusal changes nothing, and no call the rule, is promised by
    // each call for itself: it compares before with after, which no field can say.
    pub(super) fn carry_out(
        &mut self,
        letter: char,
        place: usize,
        operands: &[u8],
    ) -> Result<Telling<M>, ScriptFault>
        requires { width_of letter ≡ Some (length operands.now) }
        ensures told { event_of result ≡ (carried M.Amount.Amount.kind M.Measure.priced (R.BoundingRule.answered self.old.rule) (stage_of self.old.condition) letter place operands.now).event }
        ensures stage { stage_of self.new.condition ≡ (carried M.Amount.Amount.kind M.Measure.priced (R.BoundingRule.answered self.old.rule) (stage_of self.old.condition) letter place operands.now).stage }
        ensures refused { OnErr result (self.new ≡ self.old) }
        ensures rule { self.new.rule ≡ self.old.rule }
    {
        // Matched together, as a project rule asks. No arm joins two: tried, and of what `|` or a last `_` meets, too little is
        // known to prove that the session stays.
        match (&mut self.condition, letter) {
            (Condition::Set, 'D') => self.begin_design(place, operands),
            (Condition::Searching(_), 'D') => self.begin_design(place, operands),
            (Condition::Filling(design), 'L') => put_link(design, place, operands),
            (Condition::Filling(_), 'C') => self.close_design(place),
            (Condition::Searching(search), 'S') => run_search(search, &self.rule, place, operands),
            (Condition::Searching(search), 'O') => offer_drawing(search, place, operands),
            (Condition::Searching(search), 'P') => Ok(Telling::Reported(search.report())),
            (Condition::Set, _) => Err(ScriptFault::WrongCondition { place }),
            (Condition::Filling(_), _) => Err(ScriptFault::WrongCondition { place }),
            (Condition::Searching(_), _) => Err(ScriptFault::WrongCondition { place }),
        }
    }
}
