use crate::against_all::Trial;
use crate::plain::{Rows, Seed, class_number, count, order};
use crate::playing::Player;
use crate::seen::{Key, Keyed, Seen};
use measures::strands::ByStrands;
use measures::trunks::ByTrunks;
use std::alloc::{AllocError, Global};
use std::process::Abort;
use std::test::*;

// A number as a line has it: in base ten, without a sign and without leading zeros.
fn number(text: &str) -> Option<u64> {
    let figures = text.bytes().all(|byte| byte.is_ascii_digit());
    let leading = text != "0" && text.starts_with('0');
    if figures && !leading {
        text.parse::<u64>().ok()
    } else {
        None
    }
}

// The same, for a number of nodes.
fn nodes(text: &str) -> Option<u32> {
    u32::try_from(number(text)?).ok()
}

// A measure whose amounts are read from a line.
trait Readable: Keyed {
    fn read(text: &str) -> Option<Key>;
}

impl Readable for ByStrands {
    fn read(text: &str) -> Option<Key> {
        Some(Key {
            first: number(text)?,
            second: 0,
        })
    }
}

impl Readable for ByTrunks {
    fn read(text: &str) -> Option<Key> {
        let (trunk, rest) = text.split_once('/')?;
        Some(Key {
            first: number(trunk)?,
            second: number(rest)?,
        })
    }
}

// The fields of a line, which ends in byte 10; no field has a space or another end in it.
fn fields(heap: Global, line: &[u8]) -> Result<Vec<&str>, Fail> {
    let text = str::from_utf8(line)?;
    let text = text.strip_suffix('\n').ok_or("no end of the line")?;
    Ok(text.split(' ').collect(heap)?)
}

// A row of so many switches, parted by commas: each of them once.
fn row(heap: Global, text: &str, size: u8) -> Result<Vec<u8>, Fail> {
    let mut row = Vec::new(heap);
    for switch in text.split(',') {
        let switch = number(switch).ok_or("a switch is no number")?;
        row.push(u8::try_from(switch)?)?;
    }
    let all = (0..size).all(|switch| row.contains(&switch));
    if all && row.len() == usize::from(size) {
        Ok(row)
    } else {
        Err(Fail::new("a row is no order of the switches"))
    }
}

// Whether the first word of a report says that the search is done.
fn is_done(text: &str) -> Option<bool> {
    match text {
        "done" => Some(true),
        "open" => Some(false),
        _ => None,
    }
}

// What the line of a report says of a trial's design. The trees of trials are small enough that their size is told.
fn read_report<M: Readable>(trial: &Trial, line: &[u8]) -> Result<Seen, Fail> {
    let fields = fields(trial.heap, line)?;
    let [done, opened, cost, floor, size, left, right] = fields.as_slice() else {
        return Err(Fail::new("a report has seven fields"));
    };
    let left = row(trial.heap, left, trial.sizes.left)?;
    let right = row(trial.heap, right, trial.sizes.right)?;
    Ok(Seen {
        done: is_done(done).ok_or("neither done nor open")?,
        opened: nodes(opened).ok_or("the opened count is no number")?,
        cost: M::read(cost).ok_or("the cost is no amount")?,
        floor: M::read(floor).ok_or("the floor is no amount")?,
        size: Some(nodes(size).ok_or("the size is no number")?),
        rows: Rows::of(left.as_slice(), right.as_slice()),
    })
}

// How many nodes a line says were opened.
fn read_opened(heap: Global, line: &[u8]) -> Result<u32, Fail> {
    let fields = fields(heap, line)?;
    let ["opened", opened] = fields.as_slice() else {
        return Err(Fail::new("not the line of opened nodes"));
    };
    Ok(nodes(opened).ok_or("the opened count is no number")?)
}

// What the line of an offer says: whether the drawing was taken, and its cost.
#[derive(Clone, Copy, PartialEq, Eq, Debug)]
struct Offer {
    taken: bool,
    cost: Key,
}

impl Offer {
    fn read<M: Readable>(heap: Global, line: &[u8]) -> Result<Offer, Fail> {
        let fields = fields(heap, line)?;
        let (taken, cost) = match fields.as_slice() {
            ["taken", cost] => (true, cost),
            ["kept", cost] => (false, cost),
            _ => return Err(Fail::new("not the line of an offer")),
        };
        Ok(Offer {
            taken,
            cost: M::read(cost).ok_or("the cost is no amount")?,
        })
    }
}

// The script up to the close of a trial's design.
fn setup<M: Keyed>(trial: &Trial, rule: u8) -> Result<Vec<u8>, AllocError> {
    let sizes = trial.sizes;
    let mut script = vec![in trial.heap; b'M', M::NUMBER, rule, b'D', sizes.left, sizes.right]?;
    for link in trial.links.iter() {
        script.extend_from_slice(&[
            b'L',
            link.left,
            link.right,
            link.strands,
            class_number(link.class),
        ])?;
    }
    script.push(b'C')?;
    Ok(script)
}

// What the trials met, so that none of it is left out: searches done at once, done with fewer nodes than there are, done
// with more than 20, and ended with a better drawing; runs that opened some nodes, but fewer than asked for; reports with a
// floor between zero and the best; offers, and those that ended a search.
#[derive(Default, Drop)]
struct Met {
    at_once: u32,
    pruned: u32,
    long: u32,
    improved: u32,
    short: u32,
    inside: u32,
    taken: u32,
    kept: u32,
    tied: u32,
    ended: u32,
}

impl Met {
    fn add_search(&mut self, start: &Seen, end: &Seen) {
        let size = end.size.unwrap_or(0);
        count(&mut self.at_once, start.done);
        count(&mut self.pruned, end.opened > 0 && end.opened < size);
        count(&mut self.long, end.opened > 20);
        count(&mut self.improved, end.cost < start.cost);
    }

    fn add_offer(&mut self, cost: Key, before: &Seen, after: &Seen) {
        count(&mut self.taken, cost < before.cost);
        count(&mut self.kept, before.cost < cost);
        count(&mut self.tied, before.cost == cost);
        count(&mut self.ended, after.done && !before.done);
    }

    fn check(&self, rt: &impl Abort) -> Result<(), Fail> {
        assert!(rt; self.at_once > 20);
        assert!(rt; self.pruned > 20);
        assert!(rt; self.long > 20);
        assert!(rt; self.improved > 20);
        assert!(rt; self.short > 20);
        assert!(rt; self.inside > 20);
        assert!(rt; self.taken > 20);
        assert!(rt; self.kept > 20);
        assert!(rt; self.tied > 20);
        assert!(rt; self.ended > 5);
        Ok(())
    }
}

// A session that searches a trial's design, its script so far, and what is known from outside: the least cost of all
// drawings, the nodes that its lines said were opened, and the last report; with what the trials draw and meet.
#[derive(Drop)]
struct Watch<'a, R> {
    player: Player<'a, R>,
    script: Vec<u8>,
    trial: &'a Trial,
    least: Key,
    opened: u32,
    last: Seen,
    seed: &'a mut Seed,
    met: &'a mut Met,
}

impl<'a, R: Abort + AllocGlobal> Watch<'a, R> {
    // What is known of a search that is just started.
    fn start<M: Keyed>(
        rt: &'a R,
        trial: &'a Trial,
        rule: u8,
        seed: &'a mut Seed,
        met: &'a mut Met,
    ) -> Result<Watch<'a, R>, Fail> {
        let script = setup::<M>(trial, rule)?;
        let mut player = Player::new(rt);
        let outcome = player.play(script.as_slice(), 256)?;
        outcome.check(rt, None, script.len(), b"")?;
        Ok(Watch {
            player,
            script,
            trial,
            least: trial.least::<M>()?,
            opened: 0,
            last: trial.start::<M>()?,
            seed,
            met,
        })
    }

    // Plays one command more, and gives its line.
    fn play(&mut self, command: &[u8]) -> Result<Vec<u8>, Fail> {
        let place = self.script.len();
        self.script.extend_from_slice(command)?;
        let outcome = self.player.call(self.script.as_slice(), place, 256)?;
        assert_eq!(self.player.rt; outcome.refused, None);
        assert_eq!(self.player.rt; outcome.next, self.script.len());
        Ok(outcome.text)
    }

    // Whether a report is true, and tells no less than the last one; `cost` is that of the drawing in it.
    fn check(&self, seen: &Seen, cost: Key) -> Result<(), Fail> {
        let rt = self.player.rt;
        assert_eq!(rt; seen.cost, cost);
        assert!(rt; seen.floor <= self.least && self.least <= seen.cost);
        assert!(rt; self.last.floor <= seen.floor && seen.cost <= self.last.cost);
        assert_eq!(rt; seen.done, seen.floor == seen.cost);
        assert_eq!(rt; seen.opened, self.opened);
        assert_eq!(rt; seen.size, self.trial.sizes.tree_size());
        assert!(rt; seen.opened <= seen.size.unwrap_or(0));
        Ok(())
    }

    // Asks for a report.
    fn look<M: Readable>(&mut self) -> Result<(), Fail> {
        let line = self.play(b"P")?;
        let seen = read_report::<M>(self.trial, line.as_slice())?;
        self.check(&seen, self.trial.cost::<M>(&seen.rows))?;
        self.last = seen;
        Ok(())
    }

    // Opens one to seven nodes; fewer than asked for only if the search is then done.
    fn run<M: Readable>(&mut self) -> Result<(), Fail> {
        let asked = self.seed.below(7).wrapping_add(1);
        let line = self.play(&[b'S', 0, 0, 0, asked])?;
        let opened = read_opened(self.trial.heap, line.as_slice())?;
        self.opened = self.opened.wrapping_add(opened);
        self.look::<M>()?;
        let fewer = opened < u32::from(asked);
        assert!(self.player.rt; opened == u32::from(asked) || fewer && self.last.done);
        count(&mut self.met.short, fewer && opened > 0);
        Ok(())
    }

    // Some drawing.
    fn drawing(&mut self) -> Result<Rows, AllocError> {
        let Trial { heap, sizes, .. } = self.trial;
        let left = order(*heap, sizes.left, self.seed.number())?;
        let right = order(*heap, sizes.right, self.seed.number())?;
        Ok(Rows::of(left.as_slice(), right.as_slice()))
    }

    // Offers some drawing.
    fn offer<M: Readable>(&mut self) -> Result<(), Fail> {
        let heap = self.trial.heap;
        let rows = self.drawing()?;
        let cost = self.trial.cost::<M>(&rows);
        let last = self.last;
        let mut command = vec![in heap; b'O']?;
        command.extend_from_slice(rows.bytes(heap)?.as_slice())?;
        let line = self.play(command.as_slice())?;
        let offer = Offer::read::<M>(heap, line.as_slice())?;
        let taken = cost < last.cost;
        assert_eq!(self.player.rt; offer, Offer { taken, cost });
        self.look::<M>()?;
        assert_eq!(self.player.rt; self.last, last.after_offer(rows, cost));
        self.met.add_offer(cost, &last, &self.last);
        Ok(())
    }

    // Runs the search to its end, with an offer now and then.
    fn to_the_end<M: Readable>(&mut self) -> Result<(), Fail> {
        for _ in 0..1000 {
            if self.seed.below(4) == 0 {
                self.offer::<M>()?;
            }
            if self.last.done {
                return Ok(());
            }
            self.run::<M>()?;
            let inside = self.last.floor.first > 0 && self.last.floor < self.last.cost;
            count(&mut self.met.inside, inside);
        }
        Err(Fail::new("the search does not end"))
    }

    // A search that is done has the least cost of all, and nothing changes any more.
    fn beyond<M: Readable>(&mut self) -> Result<(), Fail> {
        let end = self.last;
        assert_eq!(self.player.rt; end.cost, self.least);
        assert_eq!(self.player.rt; end.floor, self.least);
        self.run::<M>()?;
        self.offer::<M>()?;
        assert_eq!(self.player.rt; self.last, end);
        Ok(())
    }

    // The search from its start to its end and beyond.
    fn check_whole<M: Readable>(&mut self) -> Result<(), Fail> {
        let expected = self.last;
        self.look::<M>()?;
        let start = self.last;
        assert_eq!(self.player.rt; start.cost, expected.cost);
        assert_eq!(self.player.rt; start.rows, expected.rows);
        self.to_the_end::<M>()?;
        self.met.add_search(&start, &self.last);
        self.beyond::<M>()
    }
}

// Random designs, under both measures and both rules.
#[test]
fn reports_against_all_drawings(rt: HostRuntime) -> Result<(), Fail> {
    let mut seed = Seed::new(19);
    let mut met = Met::default();
    for _ in 0..120 {
        let trial = Trial::new(rt.alloc(), &mut seed)?;
        for rule in [1, 2] {
            Watch::start::<ByStrands>(&rt, &trial, rule, &mut seed, &mut met)?.check_whole::<
                ByStrands,
            >()?;
            Watch::start::<ByTrunks>(&rt, &trial, rule, &mut seed, &mut met)?.check_whole::<
                ByTrunks,
            >()?;
        }
    }
    met.check(&rt)
}
