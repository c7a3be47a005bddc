use sessions::session::Session;
use std::alloc::{AllocError, Global};
use std::process::Abort;
use std::test::*;

// A byte that no line has in its text.
const UNTOUCHED: u8 = 7;

// What came of a call: the number of its refusal, if it was refused, the next command's byte, and what it wrote.
#[derive(Drop)]
pub struct Outcome {
    pub refused: Option<u8>,
    pub next: usize,
    pub text: Vec<u8>,
}

impl Outcome {
    // Expected texts are slices, and an Outcome owns its text: so each field is compared.
    pub fn check(
        &self,
        rt: &impl Abort,
        refused: Option<u8>,
        next: usize,
        text: &[u8],
    ) -> Result<(), Fail> {
        assert_eq!(rt; self.text.as_slice(), text);
        assert_eq!(rt; self.refused, refused);
        assert_eq!(rt; self.next, next);
        Ok(())
    }
}

// A session that is called as the program calls it, and in other ways.
#[derive(Drop)]
pub struct Player<'a, R> {
    pub rt: &'a R,
    session: Session,
}

impl<'a, R: Abort + AllocGlobal> Player<'a, R> {
    pub fn new(rt: &'a R) -> Player<'a, R> {
        Player {
            rt,
            session: Session::new(),
        }
    }

    // Calls the session on a line of this length, which is unchanged behind the text. Three parameters, as in the call that
    // is tested.
    pub fn call(&mut self, script: &[u8], place: usize, room: usize) -> Result<Outcome, Fail> {
        let mut line = vec![in self.rt.alloc(); UNTOUCHED; room]?;
        let answer = self.session.call(script, place, line.as_mut_slice());
        let (text, behind) = line
            .as_slice()
            .split_at_checked(answer.wrote)
            .ok_or("more text than line")?;
        assert!(self.rt; behind.iter().all(|b| *b == UNTOUCHED));
        Ok(Outcome {
            refused: answer.refused.map(|fault| fault.number()),
            next: answer.next,
            text: text.to_vec(self.rt.alloc())?,
        })
    }

    // Plays a script as the program does, call after call: the text of all lines, and the last call's refusal and next
    // byte. A script of so many bytes has at most as many commands, and a `while` would not be known to end: where the line
    // is too short, the place stays.
    pub fn play(&mut self, script: &[u8], room: usize) -> Result<Outcome, Fail> {
        let mut all = Outcome {
            refused: None,
            next: 0,
            text: Vec::new(self.rt.alloc()),
        };
        for _ in 0..script.len() {
            if all.next >= script.len() {
                break;
            }
            let last = self.call(script, all.next, room)?;
            all.text.extend_from_slice(last.text.as_slice())?;
            all.refused = last.refused;
            all.next = last.next;
        }
        Ok(all)
    }

    // A line that is too short, before all that is wrong with the script.
    fn check_short_lines(&mut self, script: &[u8]) -> Result<(), Fail> {
        for room in [0, 1, 255] {
            for place in [0, 5, script.len(), usize::MAX] {
                let outcome = self.call(script, place, room)?;
                outcome.check(self.rt, Some(1), place, b"")?;
            }
        }
        Ok(())
    }

    // A place at the end of the script, and places behind it.
    fn check_ends(&mut self, script: &[u8]) -> Result<(), Fail> {
        let end = script.len();
        for place in [
            end,
            end.saturating_add(1),
            end.saturating_add(65536),
            usize::MAX,
        ] {
            let outcome = self.call(script, place, 256)?;
            let text = format!(in self.rt.alloc(); "refused 4 script {place}\n")?;
            outcome.check(self.rt, Some(4), end, text.as_bytes())?;
        }
        Ok(())
    }

    // A script that is too long, at any place.
    fn check_too_long(&mut self, script: &[u8]) -> Result<(), Fail> {
        for place in [0, 5, 65536, 65537, usize::MAX] {
            let outcome = self.call(script, place, 256)?;
            outcome.check(self.rt, Some(2), 65537, b"refused 2 script 0\n")?;
        }
        Ok(())
    }

    // The longest script, of closes, to a session that takes none.
    fn check_longest(&mut self, script: &[u8]) -> Result<(), Fail> {
        for place in [0, 5, 65535] {
            let outcome = self.call(script, place, 256)?;
            let text = format!(in self.rt.alloc(); "refused 5 script {place}\n")?;
            outcome.check(self.rt, Some(5), place.wrapping_add(1), text.as_bytes())?;
        }
        self.check_ends(script)
    }
}

// How a session comes into a condition, and the commands that it takes there.
#[derive(Clone, Copy)]
struct Start {
    script: &'static [u8],
    takes: &'static [u8],
}

const STARTS: [Start; 7] = [
    Start {
        script: b"",
        takes: b"M",
    },
    Start {
        script: b"M\x01\x01",
        takes: b"D",
    },
    Start {
        script: b"M\x02\x02",
        takes: b"D",
    },
    Start {
        script: b"M\x01\x02D\x02\x02",
        takes: b"LC",
    },
    Start {
        script: b"M\x02\x01D\x02\x02L\x00\x01\x02\x00",
        takes: b"LC",
    },
    Start {
        script: b"M\x01\x01D\x02\x02L\x00\x01\x02\x00L\x01\x00\x03\x00C",
        takes: b"DSOP",
    },
    Start {
        script: b"M\x02\x02D\x02\x02L\x00\x01\x02\x00L\x01\x00\x03\x01C",
        takes: b"DSOP",
    },
];

impl Start {
    // A session in this condition.
    fn player<'a, R: Abort + AllocGlobal>(&self, rt: &'a R) -> Result<Player<'a, R>, Fail> {
        let mut player = Player::new(rt);
        let outcome = player.play(self.script, 256)?;
        outcome.check(rt, None, self.script.len(), b"")?;
        Ok(player)
    }

    // Plays the script with one command more, and gives the last call's outcome.
    fn then(&self, rt: &(impl Abort + AllocGlobal), command: &[u8]) -> Result<Outcome, Fail> {
        // `[self.script, command].concat(..)` gets no proof, since the two stand at different lifetimes
        let mut script = self.script.to_vec(rt.alloc())?;
        script.extend_from_slice(command)?;
        let outcome = Player::new(rt).play(script.as_slice(), 256)?;
        assert_eq!(rt; outcome.next, script.len());
        Ok(outcome)
    }

    // The same, where the script's layer refuses the command. The number is written out, since it is what is tested.
    fn then_refused(
        &self,
        rt: &(impl Abort + AllocGlobal),
        command: &[u8],
        number: u8,
    ) -> Result<(), Fail> {
        let outcome = self.then(rt, command)?;
        let at = self.script.len();
        let text = format!(in rt.alloc(); "refused {number} script {at}\n")?;
        assert_eq!(rt; outcome.refused, Some(number));
        assert_eq!(rt; outcome.text.as_slice(), text.as_bytes());
        Ok(())
    }
}

// A command: how many bytes of operands it has, and the number that refuses it, if any, where all of them are 0.
#[derive(Clone, Copy)]
struct Command {
    letter: u8,
    width: usize,
    zeros: Option<u8>,
}

const COMMANDS: [Command; 7] = [
    Command {
        letter: b'M',
        width: 2,
        zeros: Some(6),
    },
    Command {
        letter: b'D',
        width: 2,
        zeros: Some(8),
    },
    Command {
        letter: b'L',
        width: 4,
        zeros: Some(10),
    },
    Command {
        letter: b'C',
        width: 0,
        zeros: None,
    },
    Command {
        letter: b'S',
        width: 4,
        zeros: Some(13),
    },
    Command {
        letter: b'O',
        width: 48,
        zeros: Some(15),
    },
    Command {
        letter: b'P',
        width: 0,
        zeros: None,
    },
];

impl Command {
    // The letter and so many operands, each of them 0.
    fn with_zeros(&self, heap: Global, count: usize) -> Result<Vec<u8>, AllocError> {
        let mut bytes = vec![in heap; self.letter]?;
        bytes.resize(count.saturating_add(1), 0)?;
        Ok(bytes)
    }

    fn check_from(&self, rt: &(impl Abort + AllocGlobal), start: &Start) -> Result<(), Fail> {
        for count in 0..self.width {
            start.then_refused(rt, self.with_zeros(rt.alloc(), count)?.as_slice(), 4)?;
        }
        let whole = self.with_zeros(rt.alloc(), self.width)?;
        if !start.takes.contains(&self.letter) {
            return start.then_refused(rt, whole.as_slice(), 5);
        }
        assert_eq!(rt; start.then(rt, whole.as_slice())?.refused, self.zeros);
        Ok(())
    }
}

// Operands that are cut off, and whole commands: not taken in the condition, or refused for their operands.
#[test]
fn operands(rt: HostRuntime) -> Result<(), Fail> {
    for start in &STARTS {
        for command in &COMMANDS {
            command.check_from(&rt, start)?;
        }
    }
    Ok(())
}

// Every byte that is no letter, among them 'm', 'F' and 'V', alone and with more behind it.
#[test]
fn unknown_letters(rt: HostRuntime) -> Result<(), Fail> {
    for start in &STARTS {
        for byte in (0..=255u8).filter(|byte| !b"MDLCSOP".contains(byte)) {
            start.then_refused(&rt, &[byte], 3)?;
            start.then_refused(&rt, &[byte, b'M', 1, 1, b'C'], 3)?;
        }
    }
    Ok(())
}

#[test]
fn lengths(rt: HostRuntime) -> Result<(), Fail> {
    let longest = vec![in rt.alloc(); b'C'; 65536]?;
    let too_long = vec![in rt.alloc(); b'C'; 65537]?;
    for start in &STARTS {
        let mut player = start.player(&rt)?;
        player.check_short_lines(start.script)?;
        player.check_short_lines(b"Z and more")?;
        player.check_short_lines(too_long.as_slice())?;
        player.check_ends(b"")?;
        player.check_ends(start.script)?;
        player.check_too_long(too_long.as_slice())?;
        if !start.takes.contains(&b'C') {
            player.check_longest(longest.as_slice())?;
        }
    }
    Ok(())
}

// Offers to a design of two and two switches.
const ORDER: &[u8] =
    b"O\x00\x01\xff\xff\xff\xff\xff\xff\xff\xff\xff\xff\xff\xff\xff\xff\xff\xff\xff\xff\xff\xff\xff\xff\
    \x00\x01\xff\xff\xff\xff\xff\xff\xff\xff\xff\xff\xff\xff\xff\xff\xff\xff\xff\xff\xff\xff\xff\xff";

const TURNED: &[u8] =
    b"O\x00\x01\xff\xff\xff\xff\xff\xff\xff\xff\xff\xff\xff\xff\xff\xff\xff\xff\xff\xff\xff\xff\xff\xff\
    \x01\x00\xff\xff\xff\xff\xff\xff\xff\xff\xff\xff\xff\xff\xff\xff\xff\xff\xff\xff\xff\xff\xff\xff";

const BOTH_TURNED: &[u8] =
    b"O\x01\x00\xff\xff\xff\xff\xff\xff\xff\xff\xff\xff\xff\xff\xff\xff\xff\xff\xff\xff\xff\xff\xff\xff\
    \x01\x00\xff\xff\xff\xff\xff\xff\xff\xff\xff\xff\xff\xff\xff\xff\xff\xff\xff\xff\xff\xff\xff\xff";

// Offers to a design of three and two switches.
const ORDER_3: &[u8] =
    b"O\x00\x01\x02\xff\xff\xff\xff\xff\xff\xff\xff\xff\xff\xff\xff\xff\xff\xff\xff\xff\xff\xff\xff\xff\
    \x00\x01\xff\xff\xff\xff\xff\xff\xff\xff\xff\xff\xff\xff\xff\xff\xff\xff\xff\xff\xff\xff\xff\xff";

const TURNED_3: &[u8] =
    b"O\x00\x01\x02\xff\xff\xff\xff\xff\xff\xff\xff\xff\xff\xff\xff\xff\xff\xff\xff\xff\xff\xff\xff\xff\
    \x01\x00\xff\xff\xff\xff\xff\xff\xff\xff\xff\xff\xff\xff\xff\xff\xff\xff\xff\xff\xff\xff\xff\xff";

// Offers to a design of the largest size.
const ORDER_24: &[u8] =
    b"O\x00\x01\x02\x03\x04\x05\x06\x07\x08\x09\x0a\x0b\x0c\x0d\x0e\x0f\x10\x11\x12\x13\x14\x15\x16\x17\
    \x00\x01\x02\x03\x04\x05\x06\x07\x08\x09\x0a\x0b\x0c\x0d\x0e\x0f\x10\x11\x12\x13\x14\x15\x16\x17";

const TURNED_24: &[u8] =
    b"O\x00\x01\x02\x03\x04\x05\x06\x07\x08\x09\x0a\x0b\x0c\x0d\x0e\x0f\x10\x11\x12\x13\x14\x15\x16\x17\
    \x17\x16\x15\x14\x13\x12\x11\x10\x0f\x0e\x0d\x0c\x0b\x0a\x09\x08\x07\x06\x05\x04\x03\x02\x01\x00";

// A whole script in pieces, the length of the line, and what comes of it.
#[derive(Drop)]
struct Case {
    pieces: &'static [&'static [u8]],
    room: usize,
    text: &'static [u8],
    refused: Option<u8>,
    next: usize,
}

const PLAIN: &[u8] = b"D\x02\x02L\x00\x01\x02\x00L\x01\x00\x03\x00C";

const ONE_TRUNK: &[u8] = b"D\x02\x02L\x00\x01\x02\x00L\x01\x00\x03\x01C";

const TWO_TRUNKS: &[u8] = b"D\x02\x02L\x00\x01\x02\x01L\x01\x00\x03\x01C";

// A cell with three links, one of them a trunk: three strands cross two.
const REPEATED: &[u8] =
    b"D\x02\x02L\x00\x01\x01\x00L\x00\x01\x01\x01L\x00\x01\x01\x00L\x01\x00\x02\x00C";

// Links that share a switch.
const FAN: &[u8] = b"D\x02\x02L\x00\x01\x02\x01L\x01\x01\x03\x00C";

// A trunk crossing for 1 in number order, and an ordinary one for 255 with the right row turned.
const TRADE: &[u8] = b"D\x03\x02L\x00\x01\x01\x01L\x01\x00\x01\x00L\x02\x01\xff\x00C";

// Two full cells in the corners of the largest design.
const CORNERS: &[u8] = b"D\x18\x18L\x00\x17\xff\x01L\x17\x00\xff\x00C";

// Crossings for 1, a trunk's, in number order, and for 6 with one row turned.
const MIXED: &[u8] =
    b"D\x02\x02L\x00\x00\x03\x00L\x01\x00\x01\x00L\x00\x01\x01\x01L\x01\x01\x02\x00C";

// A link in each cell. No drawing costs less than number order, and rule 2 finds it late.
const EVERY_CELL: &[u8] = b"D\x03\x02L\x00\x00\x01\x00L\x00\x01\x01\x00L\x01\x00\x02\x00\
    L\x01\x01\x02\x00L\x02\x00\x02\x00L\x02\x01\x03\x00C";

const SET_1: &[u8] = b"M\x01\x01";

const SET_1_LESSER: &[u8] = b"M\x01\x02";

const SET_2_SETTLED: &[u8] = b"M\x02\x01";

const SET_2: &[u8] = b"M\x02\x02";

// A link to a design that is closed.
const LATE_LINK: &[u8] = b"L\x00\x00\x01\x00";

// Nodes to open.
const NO_NODES: &[u8] = b"S\x00\x00\x00\x00";

const ONE: &[u8] = b"S\x00\x00\x00\x01";

const THREE: &[u8] = b"S\x00\x00\x00\x03";

const FOUR: &[u8] = b"S\x00\x00\x00\x04";

const SIX: &[u8] = b"S\x00\x00\x00\x06";

const FIFTY: &[u8] = b"S\x00\x00\x00\x32";

const HUNDRED: &[u8] = b"S\x00\x00\x00\x64";

const MILLION: &[u8] = b"S\x00\x0f\x42\x40";

const ABOVE_MILLION: &[u8] = b"S\x00\x0f\x42\x41";

const MOST_NODES: &[u8] = b"S\xff\xff\xff\xff";

const REPORT: &[u8] = b"P";

const CASES: [Case; 37] = [
    Case {
        pieces: &[],
        room: 256,
        text: b"",
        refused: None,
        next: 0,
    },
    Case {
        pieces: &[SET_1],
        room: 256,
        text: b"",
        refused: None,
        next: 3,
    },
    Case {
        pieces: &[SET_1, PLAIN],
        room: 255,
        text: b"",
        refused: Some(1),
        next: 0,
    },
    Case {
        pieces: &[SET_1, PLAIN, ORDER, TURNED, ORDER],
        room: 256,
        text: b"kept 6\ntaken 0\nkept 6\n",
        refused: None,
        next: 164,
    },
    Case {
        pieces: &[SET_1, PLAIN, ORDER, TURNED, ORDER],
        room: 300,
        text: b"kept 6\ntaken 0\nkept 6\n",
        refused: None,
        next: 164,
    },
    Case {
        pieces: &[SET_2, PLAIN, ORDER, TURNED, ORDER],
        room: 256,
        text: b"kept 0/6\ntaken 0/0\nkept 0/6\n",
        refused: None,
        next: 164,
    },
    Case {
        pieces: &[SET_2, ONE_TRUNK, ORDER, TURNED, ORDER],
        room: 256,
        text: b"kept 6/0\ntaken 0/0\nkept 6/0\n",
        refused: None,
        next: 164,
    },
    Case {
        pieces: &[SET_2, TWO_TRUNKS, ORDER, TURNED],
        room: 256,
        text: b"kept 6/0\ntaken 0/0\n",
        refused: None,
        next: 115,
    },
    Case {
        pieces: &[SET_2, TWO_TRUNKS, BOTH_TURNED],
        room: 256,
        text: b"kept 6/0\n",
        refused: None,
        next: 66,
    },
    Case {
        pieces: &[SET_1, REPEATED, ORDER],
        room: 256,
        text: b"kept 6\n",
        refused: None,
        next: 76,
    },
    Case {
        pieces: &[SET_2, REPEATED, ORDER],
        room: 256,
        text: b"kept 6/0\n",
        refused: None,
        next: 76,
    },
    Case {
        pieces: &[SET_2, FAN, ORDER, TURNED, BOTH_TURNED],
        room: 256,
        text: b"kept 0/0\nkept 0/0\nkept 0/0\n",
        refused: None,
        next: 164,
    },
    Case {
        pieces: &[SET_1, TRADE, TURNED_3, ORDER_3],
        room: 256,
        text: b"kept 255\nkept 1\n",
        refused: None,
        next: 120,
    },
    Case {
        pieces: &[SET_2, TRADE, TURNED_3, ORDER_3],
        room: 256,
        text: b"taken 0/255\nkept 1/0\n",
        refused: None,
        next: 120,
    },
    Case {
        pieces: &[SET_1, CORNERS, ORDER_24, TURNED_24],
        room: 256,
        text: b"kept 65025\ntaken 0\n",
        refused: None,
        next: 115,
    },
    Case {
        pieces: &[SET_2, CORNERS, ORDER_24, TURNED_24],
        room: 256,
        text: b"kept 65025/0\ntaken 0/0\n",
        refused: None,
        next: 115,
    },
    Case {
        pieces: &[SET_1, PLAIN, TURNED, PLAIN, BOTH_TURNED, TURNED],
        room: 256,
        text: b"taken 0\nkept 6\ntaken 0\n",
        refused: None,
        next: 178,
    },
    Case {
        pieces: &[b"M\x03\x01", SET_1, b"D\x19\x02", b"C"],
        room: 256,
        text: b"refused 6 setup 0\nrefused 8 design 6\nrefused 5 script 9\n",
        refused: Some(5),
        next: 10,
    },
    Case {
        pieces: &[b"M\x02\x03"],
        room: 256,
        text: b"refused 7 setup 0\n",
        refused: Some(7),
        next: 3,
    },
    Case {
        pieces: &[SET_1, PLAIN, TURNED, SET_2],
        room: 256,
        text: b"taken 0\nrefused 5 script 66\n",
        refused: Some(5),
        next: 69,
    },
    Case {
        pieces: &[
            SET_1_LESSER,
            PLAIN,
            REPORT,
            FOUR,
            REPORT,
            LATE_LINK,
            HUNDRED,
            REPORT,
            MIXED,
            REPORT,
        ],
        room: 256,
        text: b"open 0 6 0 11 0,1 0,1\nopened 4\nopen 4 6 0 11 0,1 0,1\nrefused 5 script 24\n\
            opened 1\ndone 5 0 0 11 0,1 1,0\nopen 0 1 0 11 0,1 0,1\n",
        refused: None,
        next: 60,
    },
    Case {
        pieces: &[SET_1, MIXED, HUNDRED, REPORT],
        room: 256,
        text: b"opened 7\ndone 7 1 1 11 0,1 0,1\n",
        refused: None,
        next: 33,
    },
    Case {
        pieces: &[SET_1_LESSER, MIXED, HUNDRED, REPORT],
        room: 256,
        text: b"opened 3\ndone 3 1 1 11 0,1 0,1\n",
        refused: None,
        next: 33,
    },
    Case {
        pieces: &[SET_2_SETTLED, MIXED, HUNDRED, REPORT],
        room: 256,
        text: b"opened 8\ndone 8 0/6 0/6 11 0,1 1,0\n",
        refused: None,
        next: 33,
    },
    Case {
        pieces: &[SET_2, MIXED, HUNDRED, REPORT],
        room: 256,
        text: b"opened 6\ndone 6 0/6 0/6 11 0,1 1,0\n",
        refused: None,
        next: 33,
    },
    Case {
        pieces: &[
            SET_2, MIXED, REPORT, ONE, REPORT, ONE, REPORT, ONE, REPORT, ONE, REPORT, ONE, REPORT,
            ONE, REPORT, ONE, REPORT,
        ],
        room: 256,
        text: b"open 0 1/0 0/0 11 0,1 0,1\nopened 1\nopen 1 1/0 0/0 11 0,1 0,1\nopened 1\n\
            open 2 1/0 0/0 11 0,1 0,1\nopened 1\nopen 3 1/0 0/0 11 0,1 0,1\nopened 1\n\
            open 4 1/0 0/0 11 0,1 0,1\nopened 1\nopen 5 0/6 0/0 11 0,1 1,0\nopened 1\n\
            done 6 0/6 0/6 11 0,1 1,0\nopened 0\ndone 6 0/6 0/6 11 0,1 1,0\n",
        refused: None,
        next: 70,
    },
    Case {
        pieces: &[
            SET_2_SETTLED,
            MIXED,
            THREE,
            REPORT,
            BOTH_TURNED,
            TURNED,
            REPORT,
            HUNDRED,
            REPORT,
            ORDER,
            REPORT,
        ],
        room: 256,
        text: b"opened 3\nopen 3 1/0 0/0 11 0,1 0,1\nkept 1/0\ntaken 0/6\nopen 3 0/6 0/0 11 0,1 1,0\n\
            opened 4\ndone 7 0/6 0/6 11 0,1 1,0\nkept 1/0\ndone 7 0/6 0/6 11 0,1 1,0\n",
        refused: None,
        next: 188,
    },
    Case {
        pieces: &[SET_1_LESSER, EVERY_CELL, SIX, REPORT, HUNDRED, REPORT],
        room: 256,
        text: b"opened 6\nopen 6 8 2 33 0,1,2 0,1\nopened 3\ndone 9 8 8 33 0,1,2 0,1\n",
        refused: None,
        next: 49,
    },
    Case {
        pieces: &[SET_1, PLAIN, TURNED, REPORT, HUNDRED, REPORT],
        room: 256,
        text: b"taken 0\ndone 0 0 0 11 0,1 1,0\nopened 0\ndone 0 0 0 11 0,1 1,0\n",
        refused: None,
        next: 73,
    },
    Case {
        pieces: &[
            SET_2, PLAIN, THREE, REPORT, MIXED, REPORT, HUNDRED, REPORT, PLAIN, REPORT,
        ],
        room: 256,
        text: b"opened 3\nopen 3 0/6 0/0 11 0,1 0,1\nopen 0 1/0 0/0 11 0,1 0,1\nopened 6\n\
            done 6 0/6 0/6 11 0,1 1,0\nopen 0 0/6 0/0 11 0,1 0,1\n",
        refused: None,
        next: 69,
    },
    Case {
        pieces: &[
            SET_1_LESSER,
            PLAIN,
            FOUR,
            REPORT,
            NO_NODES,
            ABOVE_MILLION,
            MOST_NODES,
            REPORT,
            MILLION,
            NO_NODES,
            ABOVE_MILLION,
            REPORT,
        ],
        room: 256,
        text: b"opened 4\nopen 4 6 0 11 0,1 0,1\nrefused 13 search 23\nrefused 13 search 28\n\
            refused 13 search 33\nopen 4 6 0 11 0,1 0,1\nopened 1\nrefused 13 search 44\n\
            refused 13 search 49\ndone 5 0 0 11 0,1 1,0\n",
        refused: None,
        next: 55,
    },
    Case {
        pieces: &[
            REPORT,
            ONE,
            SET_1,
            REPORT,
            ONE,
            b"D\x02\x02",
            REPORT,
            NO_NODES,
            b"C",
            REPORT,
        ],
        room: 256,
        text: b"refused 5 script 0\nrefused 5 script 1\nrefused 5 script 9\nrefused 5 script 10\n\
            refused 5 script 18\nrefused 5 script 19\ndone 0 0 0 11 0,1 0,1\n",
        refused: None,
        next: 26,
    },
    Case {
        pieces: &[SET_1, b"D\x18\x18C", REPORT, MILLION, REPORT],
        room: 256,
        text: b"done 0 0 0 - 0,1,2,3,4,5,6,7,8,9,10,11,12,13,14,15,16,17,18,19,20,21,22,23 \
            0,1,2,3,4,5,6,7,8,9,10,11,12,13,14,15,16,17,18,19,20,21,22,23\nopened 0\ndone 0 0 0 - \
            0,1,2,3,4,5,6,7,8,9,10,11,12,13,14,15,16,17,18,19,20,21,22,23 \
            0,1,2,3,4,5,6,7,8,9,10,11,12,13,14,15,16,17,18,19,20,21,22,23\n",
        refused: None,
        next: 14,
    },
    Case {
        pieces: &[SET_2, CORNERS, FIFTY, REPORT, MILLION, REPORT],
        room: 256,
        text: b"opened 50\nopen 50 65025/0 0/0 - \
            0,1,2,3,4,5,6,7,8,9,10,11,12,13,14,15,16,17,18,19,20,21,22,23 \
            0,1,2,3,4,5,6,7,8,9,10,11,12,13,14,15,16,17,18,19,20,21,22,23\nopened 21\n\
            done 71 0/0 0/0 - 0,1,2,3,4,5,6,7,8,9,10,11,12,13,14,15,16,17,18,19,20,21,22,23 \
            1,2,3,4,5,6,7,8,9,10,11,12,13,14,15,16,17,18,19,20,21,22,23,0\n",
        refused: None,
        next: 29,
    },
    Case {
        pieces: &[SET_1, CORNERS, TURNED_24, REPORT],
        room: 256,
        text: b"taken 0\ndone 0 0 0 - 0,1,2,3,4,5,6,7,8,9,10,11,12,13,14,15,16,17,18,19,20,21,22,23 \
            23,22,21,20,19,18,17,16,15,14,13,12,11,10,9,8,7,6,5,4,3,2,1,0\n",
        refused: None,
        next: 67,
    },
    Case {
        pieces: &[SET_1, b"D\x0c\x01C", REPORT],
        room: 256,
        text: b"done 0 0 0 - 0,1,2,3,4,5,6,7,8,9,10,11 0\n",
        refused: None,
        next: 8,
    },
    Case {
        pieces: &[SET_2_SETTLED, b"D\x0b\x01C", REPORT],
        room: 256,
        text: b"done 0 0/0 0/0 83871513 0,1,2,3,4,5,6,7,8,9,10 0\n",
        refused: None,
        next: 8,
    },
];

#[test]
fn whole_scripts(rt: HostRuntime) -> Result<(), Fail> {
    for case in &CASES {
        let script = case.pieces.concat(rt.alloc())?;
        let outcome = Player::new(&rt).play(script.as_slice(), case.room)?;
        outcome.check(&rt, case.refused, case.next, case.text)?;
    }
    Ok(())
}
