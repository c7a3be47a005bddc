ghost use Rattle.std.specs.Prelude.{◌≡◌, ◌<◌, ◌≤◌, length, Some, OnSome, OnErr};
ghost use Rattle.designs.specs.Results.{on_ok};
ghost use Rattle.scripts.specs.Scripts.{read_command, next_byte};
ghost use Rattle.sessions.specs.Sessions.{whole_of, set_up, placed_set_up, outcome};
ghost use Rattle.sessions.specs.Texts.{if_room, refusal_line, Writes};
ghost use Rattle.sessions.specs.Whole.{CallsLawfully};

use super::{Answer, Session};
use crate::measured::MeasuredSession;
use crate::rule::Rule;
use crate::writing::write_refusal;
use measures::measure::Measure;
use measures::strands::ByStrands;
use measures::trunks::ByTrunks;
use scripts::command::{Command, next_after, read_command};
use scripts::fault::{ScriptFault, SetupFault, at_place};

// The session that an M with these two numbers leaves. Its two arms differ only in a type, which no number can choose
// otherwise, and the measure is refused before the rule is looked at.
fn set_up(measure: u8, rule: u8) -> Result<Session, SetupFault>
    ensures { on_ok whole_of result ≡ set_up measure rule }
{
    match measure {
        ByStrands::NUMBER => Ok(Session::ByStrands(MeasuredSession::new(Rule::try_from(rule)?))),
        ByTrunks::NUMBER => Ok(Session::ByTrunks(MeasuredSession::new(Rule::try_from(rule)?))),
        _ => Err(SetupFault::UnknownMeasure),
    }
}

// The same, for an M at a byte of the script.
fn set_up_at(measure: u8, rule: u8, place: usize) -> Result<Session, ScriptFault>
    ensures { on_ok whole_of result ≡ placed_set_up place (set_up measure rule) }
{
    Ok(at_place(set_up(measure, rule), place)?)
}

fn refuse(line: &mut [u8], fault: ScriptFault, next: usize) -> Answer
    ensures refused { result.refused ≡ Some fault }
    ensures next { result.next ≡ next }
    ensures writes { Writes line.old line.new result.wrote (if_room (length line.old) (refusal_line fault)) }
{
    let wrote = write_refusal(line, fault);
    Answer {
        refused: Some(fault),
        next,
        wrote,
    }
}

impl Session {
    // A session that no command has reached yet.
    pub fn new() -> Session
        ensures { result ≡ Session.Fresh }
    {
        Session::Fresh
    }

    // M: gives the session a measure and a rule. Apart from `call`, which would pay at each entry for the room of a session.
    fn take_measure(&mut self, measure: u8, rule: u8, place: usize) -> Result<(), ScriptFault>
        ensures session { on_ok (λ _. whole_of self.new) result ≡ placed_set_up place (set_up measure rule) }
        ensures kept { OnErr result (self.new ≡ self.old) }
    {
        *self = set_up_at(measure, rule, place)?;
        Ok(())
    }

    // Carries out the command at a byte of the script, and writes to the lent line. Script, place and line stay three
    // parameters: each call brings another place, and a struct of the three would be taken apart at once. That the line has
    // room is the premise of moving on, and no type's; that a refusal changes nothing compares before with after.
    pub fn call(&mut self, script: &[u8], place: usize, line: &mut [u8]) -> Answer
        ensures refused { result.refused ≡ (outcome (whole_of self.old) script.now place (length line.old)).refused }
        ensures next { result.next ≡ next_byte script.now place (read_command script.now place (length line.old)) }
        ensures writes { Writes line.old line.new result.wrote (if_room (length line.old) (outcome (whole_of self.old) script.now place (length line.old)).bytes) }
        ensures session { whole_of self.new ≡ (outcome (whole_of self.old) script.now place (length line.old)).session }
        ensures kept { OnSome result.refused (self.new ≡ self.old) }
        ensures law { CallsLawfully (whole_of self.old) script.now place result line.old line.new (whole_of self.new) }
        ensures forward { place < length script.now → 256 ≤ length line.old → place < result.next }
    {
        // A refusal is an answer with a line of its own, so no `?` hands it on.
        let Command { letter, next, .. } = match read_command(script, place, line.len()) {
            Ok(command) => command,
            Err(fault) => return refuse(line, fault, next_after(fault, place, script.len())),
        };
        // Matched together, as a project rule asks.
        match (&mut *self, letter) {
            (Session::Fresh, 'M') => {
                match self.take_measure(script[place + 1], script[place + 2], place) {
                    Ok(()) => Answer {
                        refused: None,
                        next,
                        wrote: 0,
                    },
                    Err(fault) => refuse(line, fault, next),
                }
            }
            (Session::Fresh, _) => refuse(line, ScriptFault::WrongCondition { place }, next),
            // An arm for each measure, as the variants are two types.
            (Session::ByStrands(session), _) => session.call_on_line(script, place, line).into(),
            (Session::ByTrunks(session), _) => session.call_on_line(script, place, line).into(),
        }
    }
}
