use crate::plain::{PlainLink, Rows, Sheet, Sizes};
use designs::choosing::{ChoiceFault, PartFault, choose, read_part};
use designs::comparing::{Comparison, compare};
use designs::design::Design;
use designs::fault::{Layer, RowFault};
use measures::link::Class;
use measures::strands::ByStrands;
use std::alloc::{AllocError, Global};
use std::cmp::Ordering;
use std::process::Abort;
use std::test::*;

const LINKS: [PlainLink; 6] = [
    PlainLink {
        left: 0,
        right: 2,
        strands: 3,
        class: Class::Ordinary,
    },
    PlainLink {
        left: 1,
        right: 0,
        strands: 2,
        class: Class::Ordinary,
    },
    PlainLink {
        left: 2,
        right: 1,
        strands: 4,
        class: Class::Trunk,
    },
    PlainLink {
        left: 0,
        right: 1,
        strands: 1,
        class: Class::Ordinary,
    },
    PlainLink {
        left: 2,
        right: 0,
        strands: 5,
        class: Class::Ordinary,
    },
    PlainLink {
        left: 1,
        right: 2,
        strands: 7,
        class: Class::Trunk,
    },
];

const SIZES: Sizes = Sizes { left: 3, right: 3 };

// A design, and the same links as a plain list.
#[derive(Drop)]
struct Trial {
    design: Design,
    sheet: Sheet,
}

impl Trial {
    fn new(rt: &(impl Abort + AllocGlobal)) -> Result<Trial, Fail> {
        let design = SIZES.design(&LINKS)?;
        let mut sheet = Sheet::new(rt.alloc());
        for link in &LINKS {
            assert!(rt; sheet.put(*link)?);
        }
        Ok(Trial { design, sheet })
    }

    // How the costs of two drawings compare, by the list of links.
    fn comparison(&self, one: &Rows, two: &Rows) -> Comparison {
        let first = one.cost(self.sheet.links()).all;
        let second = two.cost(self.sheet.links()).all;
        match first.cmp(&second) {
            Ordering::Less => Comparison::Fewer,
            Ordering::Equal => Comparison::Alike,
            Ordering::Greater => Comparison::More,
        }
    }

    // Chooses between two drawings, and compares them.
    fn choose_one(
        &self,
        rt: &(impl Abort + AllocGlobal),
        one: &Rows,
        two: &Rows,
    ) -> Result<Comparison, Fail> {
        let first = one.bytes(rt.alloc())?;
        let second = two.bytes(rt.alloc())?;
        let expected = self.comparison(one, two);
        let chosen = choose::<ByStrands>(&self.design, first.as_slice(), second.as_slice())?;
        let cheaper = if expected == Comparison::More {
            &second
        } else {
            &first
        };
        assert_eq!(rt; chosen, cheaper.as_slice());
        let first_cost = self
            .design
            .cost::<ByStrands>(&read_part(&self.design, first.as_slice())?);
        let second_cost = self
            .design
            .cost::<ByStrands>(&read_part(&self.design, second.as_slice())?);
        assert_eq!(rt; compare::<ByStrands>(first_cost, second_cost), expected);
        Ok(expected)
    }
}

// Every drawing of the design against every other.
fn check_choices(rt: &(impl Abort + AllocGlobal)) -> Result<(), Fail> {
    let trial = Trial::new(rt)?;
    let rows = SIZES.all_rows(rt.alloc())?;
    let mut met = Vec::new(rt.alloc());
    for one in rows.iter() {
        for two in rows.iter() {
            met.push(trial.choose_one(rt, one, two)?)?;
        }
    }
    assert!(rt; met.iter().filter(|c| **c == Comparison::Fewer).count() > 36);
    assert!(rt; met.iter().filter(|c| **c == Comparison::Alike).count() > 36);
    Ok(())
}

// A part of some length: two rows, and 255 where they end.
#[derive(Clone, Copy)]
struct Part {
    left: &'static [u8],
    right: &'static [u8],
    length: usize,
}

impl Part {
    fn bytes(&self, heap: Global) -> Result<Vec<u8>, AllocError> {
        let mut bytes = Rows::of(self.left, self.right).bytes(heap)?;
        bytes.resize(self.length, 255)?;
        Ok(bytes)
    }
}

const GOOD: Part = Part {
    left: &[0, 1],
    right: &[1, 0],
    length: 48,
};

const EMPTY: Part = Part {
    left: &[0, 1],
    right: &[0, 1],
    length: 0,
};

const SHORT: Part = Part {
    left: &[0, 0],
    right: &[0, 0],
    length: 47,
};

const LONG: Part = Part {
    left: &[0, 1],
    right: &[2, 1],
    length: 49,
};

const TWICE_LEFT: Part = Part {
    left: &[1, 1],
    right: &[0, 1],
    length: 48,
};

const MORE_LEFT: Part = Part {
    left: &[0, 1, 2],
    right: &[0, 1],
    length: 48,
};

const BOTH_BAD: Part = Part {
    left: &[0],
    right: &[0],
    length: 48,
};

const FEW_RIGHT: Part = Part {
    left: &[0, 1],
    right: &[1],
    length: 48,
};

const UNKNOWN_RIGHT: Part = Part {
    left: &[1, 0],
    right: &[1, 2],
    length: 48,
};

// Why a part is refused, with the number and the layer of that cause. The number is written out, since it is what is tested.
#[derive(Clone, Copy)]
struct Refusal {
    cause: PartFault,
    number: u8,
    layer: Layer,
}

const LENGTH: Refusal = Refusal {
    cause: PartFault::Length,
    number: 4,
    layer: Layer::Script,
};

const LEFT_ROW: Refusal = Refusal {
    cause: PartFault::InRow(RowFault::LeftRow),
    number: 15,
    layer: Layer::Search,
};

const RIGHT_ROW: Refusal = Refusal {
    cause: PartFault::InRow(RowFault::RightRow),
    number: 16,
    layer: Layer::Search,
};

// Two parts, and why they are refused.
#[derive(Drop)]
struct FaultCase {
    first: Part,
    second: Part,
    refusal: Refusal,
    place: usize,
}

const FAULTS: [FaultCase; 14] = [
    FaultCase {
        first: EMPTY,
        second: GOOD,
        refusal: LENGTH,
        place: 0,
    },
    FaultCase {
        first: SHORT,
        second: BOTH_BAD,
        refusal: LENGTH,
        place: 0,
    },
    FaultCase {
        first: LONG,
        second: EMPTY,
        refusal: LENGTH,
        place: 0,
    },
    FaultCase {
        first: TWICE_LEFT,
        second: GOOD,
        refusal: LEFT_ROW,
        place: 0,
    },
    FaultCase {
        first: MORE_LEFT,
        second: SHORT,
        refusal: LEFT_ROW,
        place: 0,
    },
    FaultCase {
        first: BOTH_BAD,
        second: LONG,
        refusal: LEFT_ROW,
        place: 0,
    },
    FaultCase {
        first: FEW_RIGHT,
        second: SHORT,
        refusal: RIGHT_ROW,
        place: 0,
    },
    FaultCase {
        first: UNKNOWN_RIGHT,
        second: TWICE_LEFT,
        refusal: RIGHT_ROW,
        place: 0,
    },
    FaultCase {
        first: GOOD,
        second: EMPTY,
        refusal: LENGTH,
        place: 1,
    },
    FaultCase {
        first: GOOD,
        second: SHORT,
        refusal: LENGTH,
        place: 1,
    },
    FaultCase {
        first: GOOD,
        second: LONG,
        refusal: LENGTH,
        place: 1,
    },
    FaultCase {
        first: GOOD,
        second: BOTH_BAD,
        refusal: LEFT_ROW,
        place: 1,
    },
    FaultCase {
        first: GOOD,
        second: MORE_LEFT,
        refusal: LEFT_ROW,
        place: 1,
    },
    FaultCase {
        first: GOOD,
        second: UNKNOWN_RIGHT,
        refusal: RIGHT_ROW,
        place: 1,
    },
];

impl FaultCase {
    fn check_fault(&self, rt: &impl Abort, fault: &ChoiceFault) -> Result<(), Fail> {
        assert_eq!(rt; fault.cause, self.refusal.cause);
        assert_eq!(rt; fault.cause.number(), self.refusal.number);
        assert_eq!(rt; fault.cause.layer(), self.refusal.layer);
        assert_eq!(rt; fault.place, self.place);
        Ok(())
    }
}

fn check_faults(rt: &(impl Abort + AllocGlobal)) -> Result<(), Fail> {
    let design = Design::empty(2, 2)?;
    for case in &FAULTS {
        let first = case.first.bytes(rt.alloc())?;
        let second = case.second.bytes(rt.alloc())?;
        let Err(fault) = choose::<ByStrands>(&design, first.as_slice(), second.as_slice()) else {
            return Err(Fail::new("a bad part was taken"));
        };
        case.check_fault(rt, &fault)?;
    }
    Ok(())
}

#[test]
fn choices_and_faults(rt: HostRuntime) -> Result<(), Fail> {
    check_choices(&rt)?;
    check_faults(&rt)
}
