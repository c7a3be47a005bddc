ghost use Rattle.std.specs.Prelude.{◌≡◌, ◌<◌, ◌≤◌, length, Some, IfOk};
ghost use Rattle.scripts.specs.Scripts.{width_of, read_command, next_after, operands};

use crate::fault::ScriptFault;

// The shortest line that a call takes.
pub const LINE: usize = 256;

// The longest script that a call takes.
pub const LONGEST: usize = 65536;

// A command of a script: its letter, the byte that the letter has, and the byte behind its operands. The letter stays a
// character, since a project rule has it matched together with the session's condition.
#[derive(Clone, Copy, PartialEq, Eq, Debug)]
pub struct Command {
    pub letter: char,
    pub place: usize,
    pub next: usize,
}

// How many bytes of operands the command with this letter has; none for an unknown letter.
fn operand_width(letter: char) -> Option<usize>
    ensures { result ≡ width_of letter }
{
    match letter {
        'M' | 'D' => Some(2),
        'L' | 'S' => Some(4),
        'C' | 'P' => Some(0),
        'O' => Some(48),
        _ => None,
    }
}

// Reads the command at a byte of the script, for a line with this much room. The three stay parameters: each call brings
// another place, and a struct would be taken apart at once.
pub fn read_command(script: &[u8], place: usize, room: usize) -> Result<Command, ScriptFault>
    ensures value { result ≡ read_command script.now place room }
    ensures place { IfOk result (λ c. c.place ≡ place) }
    ensures forward { IfOk result (λ c. place < c.next) }
    ensures within { IfOk result (λ c. c.next ≤ length script.now) }
    ensures whole { IfOk result (λ c. width_of c.letter ≡ Some (length (operands script.now c))) }
{
    if room < LINE {
        return Err(ScriptFault::ShortLine { place });
    }
    if script.len() > LONGEST {
        return Err(ScriptFault::LongScript);
    }
    let letter = char::from(*script.get(place).ok_or(ScriptFault::CutOff { place })?);
    let width = operand_width(letter).ok_or(ScriptFault::UnknownLetter { place })?;
    let next = place + 1 + width;
    if next > script.len() {
        return Err(ScriptFault::CutOff { place });
    }
    Ok(Command {
        letter,
        place,
        next,
    })
}

// Where the next command starts after a fault of the reader.
pub fn next_after(fault: ScriptFault, place: usize, end: usize) -> usize
    ensures { result ≡ next_after place end fault }
{
    match fault {
        ScriptFault::ShortLine { .. } => place,
        _ => end,
    }
}
