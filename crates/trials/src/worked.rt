use crate::plain::{PlainLink, Rows, Seed, SizeCase, Sizes};
use crate::seen::{Key, Keyed, Seen, see};
use measures::link::Class;
use measures::strands::ByStrands;
use measures::trunks::ByTrunks;
use partials::delivered::Rule;
use partials::size::tree_size;
use std::process::Abort;
use std::test::*;
use walks::fault::RunFault;
use walks::walk::Search;

// Two links that cross in number order.
const TWO: [PlainLink; 2] = [
    PlainLink {
        left: 0,
        right: 1,
        strands: 2,
        class: Class::Ordinary,
    },
    PlainLink {
        left: 1,
        right: 0,
        strands: 3,
        class: Class::Ordinary,
    },
];

// A link in each cell: one crossing in every drawing.
const ALL_FOUR: [PlainLink; 4] = [
    PlainLink {
        left: 0,
        right: 0,
        strands: 1,
        class: Class::Ordinary,
    },
    PlainLink {
        left: 0,
        right: 1,
        strands: 1,
        class: Class::Ordinary,
    },
    PlainLink {
        left: 1,
        right: 0,
        strands: 1,
        class: Class::Ordinary,
    },
    PlainLink {
        left: 1,
        right: 1,
        strands: 1,
        class: Class::Ordinary,
    },
];

// A trunk crossing for 1 in number order, or an ordinary one for 6.
const TRADE: [PlainLink; 4] = [
    PlainLink {
        left: 0,
        right: 0,
        strands: 3,
        class: Class::Ordinary,
    },
    PlainLink {
        left: 1,
        right: 0,
        strands: 1,
        class: Class::Ordinary,
    },
    PlainLink {
        left: 0,
        right: 1,
        strands: 1,
        class: Class::Trunk,
    },
    PlainLink {
        left: 1,
        right: 1,
        strands: 2,
        class: Class::Ordinary,
    },
];

// Links that share a switch.
const FAN: [PlainLink; 2] = [
    PlainLink {
        left: 0,
        right: 2,
        strands: 255,
        class: Class::Trunk,
    },
    PlainLink {
        left: 0,
        right: 0,
        strands: 7,
        class: Class::Ordinary,
    },
];

// Amounts: under measure 1 as one number, under measure 2 as trunk and then rest.
const NOTHING: Key = Key {
    first: 0,
    second: 0,
};

const ONE: Key = Key {
    first: 1,
    second: 0,
};

const SIX: Key = Key {
    first: 6,
    second: 0,
};

const ONE_BEHIND: Key = Key {
    first: 0,
    second: 1,
};

const SIX_BEHIND: Key = Key {
    first: 0,
    second: 6,
};

// A walk under a rule: its design and the size of its tree, the cost of the first drawing, the nodes opened to the
// end, and the cheapest drawing with its cost.
#[derive(Drop)]
struct Case {
    rule: Rule,
    sizes: Sizes,
    links: &'static [PlainLink],
    size: u32,
    first: Key,
    opened: u32,
    least: Key,
    left: &'static [u8],
    right: &'static [u8],
}

const BY_STRANDS: [Case; 10] = [
    Case {
        rule: Rule::Lesser,
        sizes: Sizes { left: 2, right: 2 },
        links: &TWO,
        size: 11,
        first: SIX,
        opened: 5,
        least: NOTHING,
        left: &[0, 1],
        right: &[1, 0],
    },
    Case {
        rule: Rule::Settled,
        sizes: Sizes { left: 2, right: 2 },
        links: &TWO,
        size: 11,
        first: SIX,
        opened: 5,
        least: NOTHING,
        left: &[0, 1],
        right: &[1, 0],
    },
    Case {
        rule: Rule::Lesser,
        sizes: Sizes { left: 2, right: 2 },
        links: &ALL_FOUR,
        size: 11,
        first: ONE,
        opened: 3,
        least: ONE,
        left: &[0, 1],
        right: &[0, 1],
    },
    Case {
        rule: Rule::Settled,
        sizes: Sizes { left: 2, right: 2 },
        links: &ALL_FOUR,
        size: 11,
        first: ONE,
        opened: 7,
        least: ONE,
        left: &[0, 1],
        right: &[0, 1],
    },
    Case {
        rule: Rule::Lesser,
        sizes: Sizes { left: 2, right: 2 },
        links: &TRADE,
        size: 11,
        first: ONE,
        opened: 3,
        least: ONE,
        left: &[0, 1],
        right: &[0, 1],
    },
    Case {
        rule: Rule::Settled,
        sizes: Sizes { left: 2, right: 2 },
        links: &TRADE,
        size: 11,
        first: ONE,
        opened: 7,
        least: ONE,
        left: &[0, 1],
        right: &[0, 1],
    },
    Case {
        rule: Rule::Lesser,
        sizes: Sizes { left: 1, right: 3 },
        links: &FAN,
        size: 16,
        first: NOTHING,
        opened: 0,
        least: NOTHING,
        left: &[0],
        right: &[0, 1, 2],
    },
    Case {
        rule: Rule::Settled,
        sizes: Sizes { left: 1, right: 3 },
        links: &FAN,
        size: 16,
        first: NOTHING,
        opened: 0,
        least: NOTHING,
        left: &[0],
        right: &[0, 1, 2],
    },
    Case {
        rule: Rule::Lesser,
        sizes: Sizes { left: 3, right: 3 },
        links: &[],
        size: 99,
        first: NOTHING,
        opened: 0,
        least: NOTHING,
        left: &[0, 1, 2],
        right: &[0, 1, 2],
    },
    Case {
        rule: Rule::Settled,
        sizes: Sizes { left: 3, right: 3 },
        links: &[],
        size: 99,
        first: NOTHING,
        opened: 0,
        least: NOTHING,
        left: &[0, 1, 2],
        right: &[0, 1, 2],
    },
];

const BY_TRUNKS: [Case; 5] = [
    Case {
        rule: Rule::Lesser,
        sizes: Sizes { left: 2, right: 2 },
        links: &TWO,
        size: 11,
        first: SIX_BEHIND,
        opened: 5,
        least: NOTHING,
        left: &[0, 1],
        right: &[1, 0],
    },
    Case {
        rule: Rule::Lesser,
        sizes: Sizes { left: 2, right: 2 },
        links: &ALL_FOUR,
        size: 11,
        first: ONE_BEHIND,
        opened: 3,
        least: ONE_BEHIND,
        left: &[0, 1],
        right: &[0, 1],
    },
    Case {
        rule: Rule::Lesser,
        sizes: Sizes { left: 2, right: 2 },
        links: &TRADE,
        size: 11,
        first: ONE,
        opened: 6,
        least: SIX_BEHIND,
        left: &[0, 1],
        right: &[1, 0],
    },
    Case {
        rule: Rule::Settled,
        sizes: Sizes { left: 2, right: 2 },
        links: &TRADE,
        size: 11,
        first: ONE,
        opened: 8,
        least: SIX_BEHIND,
        left: &[0, 1],
        right: &[1, 0],
    },
    Case {
        rule: Rule::Settled,
        sizes: Sizes { left: 1, right: 3 },
        links: &FAN,
        size: 16,
        first: NOTHING,
        opened: 0,
        least: NOTHING,
        left: &[0],
        right: &[0, 1, 2],
    },
];

impl Case {
    // What is to be seen at the start.
    fn start(&self, rt: &impl AllocGlobal) -> Result<Seen, Fail> {
        Ok(Seen {
            done: self.opened == 0,
            opened: 0,
            cost: self.first,
            floor: NOTHING,
            size: Some(self.size),
            rows: self.sizes.first_rows(rt.alloc())?,
        })
    }

    // What is to be seen at the end.
    fn end(&self) -> Seen {
        Seen {
            done: true,
            opened: self.opened,
            cost: self.least,
            floor: self.least,
            size: Some(self.size),
            rows: Rows::of(self.left, self.right),
        }
    }

    // A walk that was just started.
    fn walk<M: Keyed>(&self) -> Result<Search<M>, Fail> {
        let design = self.sizes.design(self.links)?;
        Ok(Search::start(design, &self.rule))
    }

    // A walk that was just started, to its end and beyond. It is lent: of a walk held here, for any
    // measure, it is not found that it fits into memory.
    fn check_whole<M: Keyed>(
        &self,
        rt: &(impl Abort + AllocGlobal),
        walk: &mut Search<M>,
    ) -> Result<(), Fail> {
        assert_eq!(rt; see(walk), self.start(rt)?);
        assert_eq!(rt; walk.run(&self.rule, 100), Ok(self.opened));
        assert_eq!(rt; see(walk), self.end());
        assert_eq!(rt; walk.run(&self.rule, 1), Ok(0));
        assert_eq!(rt; see(walk), self.end());
        Ok(())
    }

    // A walk stopped one node before its end, and then run on.
    fn check_stopped(&self, rt: &(impl Abort + AllocGlobal)) -> Result<(), Fail> {
        let mut walk = self.walk::<ByStrands>()?;
        assert_eq!(rt; walk.run(&self.rule, 4), Ok(4));
        let stopped = Seen {
            opened: 4,
            ..self.start(rt)?
        };
        assert_eq!(rt; see(&walk), stopped);
        assert_eq!(rt; walk.run(&self.rule, 100), Ok(1));
        assert_eq!(rt; see(&walk), self.end());
        Ok(())
    }
}

// A loop for each measure: a walk for any measure can be handed out, but not held and lent on (see `check_whole`).
#[test]
fn worked_designs(rt: HostRuntime) -> Result<(), Fail> {
    for case in &BY_STRANDS {
        case.check_whole(&rt, &mut case.walk::<ByStrands>()?)?;
    }
    for case in &BY_TRUNKS {
        case.check_whole(&rt, &mut case.walk::<ByTrunks>()?)?;
    }
    BY_STRANDS[0].check_stopped(&rt)?;
    BY_STRANDS[1].check_stopped(&rt)
}

// Runs that are asked for no nodes or for too many change nothing.
fn check_refused(rt: &impl Abort, rule: Rule, walk: &mut Search<ByStrands>) -> Result<(), Fail> {
    let before = see(walk);
    for nodes in [0, 1_000_001, u32::MAX] {
        assert_eq!(rt; walk.run(&rule, nodes), Err(RunFault::Nodes));
        assert_eq!(rt; see(walk), before);
    }
    Ok(())
}

#[test]
fn refused_runs(rt: HostRuntime) -> Result<(), Fail> {
    assert_eq!(rt; RunFault::Nodes.number(), 13);
    assert_eq!(rt; RunFault::Total.number(), 14);
    for case in &BY_STRANDS {
        let mut walk = case.walk::<ByStrands>()?;
        check_refused(&rt, case.rule, &mut walk)?;
        let first = walk.run(&case.rule, 4)?;
        check_refused(&rt, case.rule, &mut walk)?;
        let second = walk.run(&case.rule, 1_000_000)?;
        assert_eq!(rt; first.wrapping_add(second), case.opened);
        assert_eq!(rt; see(&walk), case.end());
        check_refused(&rt, case.rule, &mut walk)?;
    }
    Ok(())
}

// Sizes of a design, and the size of its tree.
const SIZES: [SizeCase<Option<u32>>; 15] = [
    SizeCase {
        sizes: Sizes { left: 1, right: 1 },
        expected: Some(2),
    },
    SizeCase {
        sizes: Sizes { left: 1, right: 2 },
        expected: Some(5),
    },
    SizeCase {
        sizes: Sizes { left: 2, right: 1 },
        expected: Some(5),
    },
    SizeCase {
        sizes: Sizes { left: 2, right: 2 },
        expected: Some(11),
    },
    SizeCase {
        sizes: Sizes { left: 1, right: 3 },
        expected: Some(16),
    },
    SizeCase {
        sizes: Sizes { left: 3, right: 1 },
        expected: Some(15),
    },
    SizeCase {
        sizes: Sizes { left: 3, right: 3 },
        expected: Some(99),
    },
    SizeCase {
        sizes: Sizes { left: 4, right: 4 },
        expected: Some(1569),
    },
    SizeCase {
        sizes: Sizes { left: 11, right: 1 },
        expected: Some(83_871_513),
    },
    SizeCase {
        sizes: Sizes { left: 12, right: 1 },
        expected: None,
    },
    SizeCase {
        sizes: Sizes { left: 1, right: 11 },
        expected: Some(108_505_112),
    },
    SizeCase {
        sizes: Sizes { left: 1, right: 12 },
        expected: None,
    },
    SizeCase {
        sizes: Sizes { left: 24, right: 1 },
        expected: None,
    },
    SizeCase {
        sizes: Sizes { left: 1, right: 24 },
        expected: None,
    },
    SizeCase {
        sizes: Sizes {
            left: 24,
            right: 24,
        },
        expected: None,
    },
];

#[test]
fn tree_sizes(rt: HostRuntime) -> Result<(), Fail> {
    for case in &SIZES {
        let design = case.sizes.empty()?;
        assert_eq!(rt; tree_size(&design), case.expected);
        assert_eq!(rt; case.sizes.tree_size(), case.expected);
    }
    Ok(())
}

// Some runs of a walk of a large design, which has far more nodes.
#[test]
fn large_design(rt: HostRuntime) -> Result<(), Fail> {
    let sizes = Sizes {
        left: 24,
        right: 24,
    };
    let links = Seed::new(3).links(rt.alloc(), sizes, 1)?;
    let design = sizes.design(links.as_slice())?;
    let mut walk = Search::<ByStrands>::start(design, &Rule::Lesser);
    let mut last = see(&walk);
    for nodes in [20, 1, 179] {
        assert_eq!(rt; walk.run(&Rule::Lesser, nodes), Ok(nodes));
        let seen = see(&walk);
        assert_eq!(rt; seen.opened, last.opened.wrapping_add(nodes));
        assert_eq!(rt; seen.size, None);
        assert_eq!(rt; seen.cost, ByStrands::of(seen.rows.cost(links.as_slice())));
        assert!(rt; last.floor <= seen.floor && seen.floor < seen.cost && seen.cost <= last.cost);
        last = seen;
    }
    Ok(())
}
