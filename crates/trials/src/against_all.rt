use crate::plain::{PlainLink, Price, Rows, Seed, Sizes, count, order};
use crate::seen::{Key, Keyed, Seen, see};
use designs::design::Design;
use designs::drawing::Drawing;
use measures::strands::ByStrands;
use measures::trunks::ByTrunks;
use partials::delivered::Rule;
use std::alloc::{AllocError, Global};
use std::process::Abort;
use std::test::*;
use walks::walk::Search;

// What the trials met, so that none of it is left out: walks done at once, done with fewer nodes than there are,
// done with more than 20, and ended with a better drawing; reports with a floor between zero and the best; offers.
#[derive(Default, Drop)]
struct Met {
    at_once: u32,
    pruned: u32,
    long: u32,
    improved: u32,
    inside: u32,
    taken: u32,
    kept: u32,
    tied: u32,
}

impl Met {
    fn add_walk(&mut self, start: &Seen, end: &Seen) {
        let size = end.size.unwrap_or(0);
        count(&mut self.at_once, end.opened == 0);
        count(&mut self.pruned, end.opened > 0 && end.opened < size);
        count(&mut self.long, end.opened > 20);
        count(&mut self.improved, end.cost < start.cost);
    }

    fn check(&self, rt: &impl Abort) -> Result<(), Fail> {
        assert!(rt; self.at_once > 50);
        assert!(rt; self.pruned > 50);
        assert!(rt; self.long > 50);
        assert!(rt; self.improved > 50);
        assert!(rt; self.inside > 50);
        assert!(rt; self.taken > 50);
        assert!(rt; self.kept > 50);
        assert!(rt; self.tied > 50);
        Ok(())
    }
}

// A design, the same links as a plain list, and what each of its drawings costs.
#[derive(Drop)]
pub struct Trial {
    pub heap: Global,
    design: Design,
    pub links: Vec<PlainLink>,
    pub sizes: Sizes,
    prices: Vec<Price>,
}

impl Trial {
    // One to four switches a side, a single one less often.
    pub fn new(heap: Global, seed: &mut Seed) -> Result<Trial, Fail> {
        let sizes = Sizes {
            left: seed.below(7).wrapping_add(3) / 2,
            right: seed.below(7).wrapping_add(3) / 2,
        };
        let chance = seed.below(8).wrapping_add(1);
        let links = seed.links(heap, sizes, chance)?;
        let drawings = sizes.all_rows(heap)?;
        let prices = drawings
            .iter()
            .map(|rows| rows.cost(links.as_slice()))
            .collect(heap)?;
        Ok(Trial {
            heap,
            design: sizes.design(links.as_slice())?,
            links,
            sizes,
            prices,
        })
    }

    pub fn cost<M: Keyed>(&self, rows: &Rows) -> Key {
        M::of(rows.cost(self.links.as_slice()))
    }

    // What the first report of a walk says, but for its floor and whether the walk is done.
    pub fn start<M: Keyed>(&self) -> Result<Seen, AllocError> {
        let rows = self.sizes.first_rows(self.heap)?;
        Ok(Seen {
            done: false,
            opened: 0,
            cost: self.cost::<M>(&rows),
            floor: Key {
                first: 0,
                second: 0,
            },
            size: self.sizes.tree_size(),
            rows,
        })
    }

    // The least cost of all drawings.
    pub fn least<M: Keyed>(&self) -> Result<Key, Fail> {
        let costs = self.prices.iter().map(|price| M::of(*price));
        Ok(costs.min().ok_or("no drawing")?)
    }
}

// What is known of a walk from outside: its rule, the least cost of all drawings, the nodes that its runs answered, and
// the last report; with what the trials draw and meet. The walk is lent to each step: held here, for any measure, it is
// not found to fit into memory.
#[derive(Drop)]
struct Watch<'a> {
    trial: &'a Trial,
    rule: Rule,
    least: Key,
    opened: u32,
    last: Seen,
    seed: &'a mut Seed,
    met: &'a mut Met,
}

impl<'a> Watch<'a> {
    // What is known of a walk that is just started.
    fn start<M: Keyed>(
        trial: &'a Trial,
        rule: Rule,
        seed: &'a mut Seed,
        met: &'a mut Met,
    ) -> Result<Watch<'a>, Fail> {
        Ok(Watch {
            trial,
            rule,
            least: trial.least::<M>()?,
            opened: 0,
            last: trial.start::<M>()?,
            seed,
            met,
        })
    }

    // Whether a report is true, and tells no less than the last one; `cost` is that of the drawing in it.
    fn check(&self, rt: &impl Abort, seen: &Seen, cost: Key) -> Result<(), Fail> {
        assert_eq!(rt; seen.cost, cost);
        assert!(rt; seen.floor <= self.least && self.least <= seen.cost);
        assert!(rt; self.last.floor <= seen.floor && seen.cost <= self.last.cost);
        assert_eq!(rt; seen.done, seen.floor == seen.cost);
        assert_eq!(rt; seen.opened, self.opened);
        assert_eq!(rt; seen.size, self.trial.sizes.tree_size());
        assert!(rt; seen.opened <= seen.size.unwrap_or(0));
        Ok(())
    }

    // Looks at the walk's report.
    fn look<M: Keyed>(&mut self, rt: &impl Abort, walk: &Search<M>) -> Result<(), Fail> {
        let seen = see(walk);
        self.check(rt, &seen, self.trial.cost::<M>(&seen.rows))?;
        self.last = seen;
        Ok(())
    }

    // Opens one to seven nodes; fewer than asked for only if the walk is then done.
    fn run<M: Keyed>(&mut self, rt: &impl Abort, walk: &mut Search<M>) -> Result<(), Fail> {
        let nodes = u32::from(self.seed.below(7)).wrapping_add(1);
        let opened = walk.run(&self.rule, nodes)?;
        self.opened = self.opened.wrapping_add(opened);
        self.look(rt, walk)?;
        assert!(rt; opened == nodes || opened < nodes && self.last.done);
        Ok(())
    }

    // Offers some drawing.
    fn offer<M: Keyed>(&mut self, rt: &impl Abort, walk: &mut Search<M>) -> Result<(), Fail> {
        let trial = self.trial;
        let left = order(trial.heap, trial.sizes.left, self.seed.number())?;
        let right = order(trial.heap, trial.sizes.right, self.seed.number())?;
        let Some(drawing) = Drawing::of(&trial.design, left.as_slice(), right.as_slice()) else {
            return Err(Fail::new("the rows are no drawing"));
        };
        let rows = Rows::of(left.as_slice(), right.as_slice());
        let cost = trial.cost::<M>(&rows);
        let last = self.last;
        let offered = walk.offer(drawing);
        assert_eq!(rt; M::key(offered.cost), cost);
        assert_eq!(rt; offered.taken, cost < last.cost);
        self.look(rt, walk)?;
        assert_eq!(rt; self.last, last.after_offer(rows, cost));
        count(&mut self.met.taken, cost < last.cost);
        count(&mut self.met.kept, last.cost < cost);
        count(&mut self.met.tied, last.cost == cost);
        Ok(())
    }

    // Runs the walk to its end, with an offer now and then.
    fn to_the_end<M: Keyed>(&mut self, rt: &impl Abort, walk: &mut Search<M>) -> Result<(), Fail> {
        for _ in 0..2000 {
            if self.seed.below(8) == 0 {
                self.offer(rt, walk)?;
            }
            if self.last.done {
                return Ok(());
            }
            self.run(rt, walk)?;
            let inside = self.last.floor.first > 0 && self.last.floor < self.last.cost;
            count(&mut self.met.inside, inside);
        }
        Err(Fail::new("the walk does not end"))
    }

    // A walk that is done has the least cost of all, and nothing changes any more.
    fn beyond<M: Keyed>(&mut self, rt: &impl Abort, walk: &mut Search<M>) -> Result<(), Fail> {
        let end = self.last;
        assert_eq!(rt; end.cost, self.least);
        assert_eq!(rt; end.floor, self.least);
        self.run(rt, walk)?;
        self.offer(rt, walk)?;
        assert_eq!(rt; self.last, end);
        Ok(())
    }

    // The walk from its start to its end and beyond.
    fn check_whole<M: Keyed>(&mut self, rt: &impl Abort, walk: &mut Search<M>) -> Result<(), Fail> {
        let expected = self.last;
        self.look(rt, walk)?;
        let start = self.last;
        assert_eq!(rt; start.cost, expected.cost);
        self.to_the_end(rt, walk)?;
        self.met.add_walk(&start, &self.last);
        self.beyond(rt, walk)
    }
}

// Random designs, under both measures and both rules. A block for each measure: a walk for any measure can be handed out, but
// not held and lent on (see `Watch`).
#[test]
fn walks_against_all_drawings(rt: HostRuntime) -> Result<(), Fail> {
    let mut seed = Seed::new(7);
    let mut met = Met::default();
    for _ in 0..300 {
        let trial = Trial::new(rt.alloc(), &mut seed)?;
        for rule in [Rule::Settled, Rule::Lesser] {
            let mut strands = Search::<ByStrands>::start(trial.design, &rule);
            let mut watch = Watch::start::<ByStrands>(&trial, rule, &mut seed, &mut met)?;
            watch.check_whole(&rt, &mut strands)?;
            let mut trunks = Search::<ByTrunks>::start(trial.design, &rule);
            let mut watch = Watch::start::<ByTrunks>(&trial, rule, &mut seed, &mut met)?;
            watch.check_whole(&rt, &mut trunks)?;
        }
    }
    met.check(&rt)
}
