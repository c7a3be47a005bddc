use crate::plain::{PlainLink, SizeCase, Sizes};
use designs::design::Design;
use designs::fault::{DesignFault, LinkFault};
use measures::link::Class;
use std::process::Abort;
use std::test::*;

const ORDINARY: Result<Class, DesignFault> = Ok(Class::Ordinary);

const TRUNK: Result<Class, DesignFault> = Ok(Class::Trunk);

const UNKNOWN_SWITCH: Result<Class, DesignFault> = Err(DesignFault::InLink(
    LinkFault::UnknownSwitch,
));

const NO_STRANDS: Result<Class, DesignFault> = Err(DesignFault::InLink(LinkFault::NoStrands));

const UNKNOWN_CLASS: Result<Class, DesignFault> = Err(DesignFault::InLink(LinkFault::UnknownClass));

const CELL_FULL: Result<Class, DesignFault> = Err(DesignFault::InLink(LinkFault::CellFull));

// Sizes of a design, and whether it is made.
const SIZES: [SizeCase<Result<(), DesignFault>>; 9] = [
    SizeCase {
        sizes: Sizes { left: 1, right: 1 },
        expected: Ok(()),
    },
    SizeCase {
        sizes: Sizes {
            left: 24,
            right: 24,
        },
        expected: Ok(()),
    },
    SizeCase {
        sizes: Sizes { left: 0, right: 1 },
        expected: Err(DesignFault::Size),
    },
    SizeCase {
        sizes: Sizes { left: 1, right: 0 },
        expected: Err(DesignFault::Size),
    },
    SizeCase {
        sizes: Sizes { left: 0, right: 0 },
        expected: Err(DesignFault::Size),
    },
    SizeCase {
        sizes: Sizes { left: 25, right: 1 },
        expected: Err(DesignFault::Size),
    },
    SizeCase {
        sizes: Sizes { left: 1, right: 25 },
        expected: Err(DesignFault::Size),
    },
    SizeCase {
        sizes: Sizes {
            left: 255,
            right: 24,
        },
        expected: Err(DesignFault::Size),
    },
    SizeCase {
        sizes: Sizes {
            left: 24,
            right: 255,
        },
        expected: Err(DesignFault::Size),
    },
];

// A link that is put in, and what comes of it. The class is a script's number, since the table tries 2 and 255 too.
#[derive(Drop)]
struct LinkCase {
    left: u8,
    right: u8,
    strands: u8,
    class: u8,
    put: Result<Class, DesignFault>,
}

// One after the other, for a design of two left and three right switches.
const LINKS: [LinkCase; 22] = [
    LinkCase {
        left: 0,
        right: 0,
        strands: 200,
        class: 0,
        put: ORDINARY,
    },
    LinkCase {
        left: 0,
        right: 0,
        strands: 56,
        class: 1,
        put: CELL_FULL,
    },
    LinkCase {
        left: 0,
        right: 0,
        strands: 55,
        class: 0,
        put: ORDINARY,
    },
    LinkCase {
        left: 0,
        right: 0,
        strands: 1,
        class: 1,
        put: CELL_FULL,
    },
    LinkCase {
        left: 1,
        right: 2,
        strands: 255,
        class: 0,
        put: ORDINARY,
    },
    LinkCase {
        left: 1,
        right: 2,
        strands: 255,
        class: 0,
        put: CELL_FULL,
    },
    LinkCase {
        left: 0,
        right: 1,
        strands: 3,
        class: 1,
        put: TRUNK,
    },
    LinkCase {
        left: 0,
        right: 1,
        strands: 4,
        class: 0,
        put: ORDINARY,
    },
    LinkCase {
        left: 1,
        right: 0,
        strands: 5,
        class: 0,
        put: ORDINARY,
    },
    LinkCase {
        left: 1,
        right: 0,
        strands: 6,
        class: 1,
        put: TRUNK,
    },
    LinkCase {
        left: 2,
        right: 0,
        strands: 1,
        class: 0,
        put: UNKNOWN_SWITCH,
    },
    LinkCase {
        left: 2,
        right: 2,
        strands: 1,
        class: 0,
        put: UNKNOWN_SWITCH,
    },
    LinkCase {
        left: 0,
        right: 3,
        strands: 1,
        class: 0,
        put: UNKNOWN_SWITCH,
    },
    LinkCase {
        left: 255,
        right: 255,
        strands: 1,
        class: 0,
        put: UNKNOWN_SWITCH,
    },
    LinkCase {
        left: 2,
        right: 0,
        strands: 0,
        class: 2,
        put: UNKNOWN_SWITCH,
    },
    LinkCase {
        left: 0,
        right: 3,
        strands: 0,
        class: 0,
        put: UNKNOWN_SWITCH,
    },
    LinkCase {
        left: 0,
        right: 3,
        strands: 255,
        class: 2,
        put: UNKNOWN_SWITCH,
    },
    LinkCase {
        left: 1,
        right: 1,
        strands: 0,
        class: 2,
        put: NO_STRANDS,
    },
    LinkCase {
        left: 0,
        right: 0,
        strands: 0,
        class: 1,
        put: NO_STRANDS,
    },
    LinkCase {
        left: 1,
        right: 1,
        strands: 1,
        class: 2,
        put: UNKNOWN_CLASS,
    },
    LinkCase {
        left: 1,
        right: 1,
        strands: 255,
        class: 255,
        put: UNKNOWN_CLASS,
    },
    LinkCase {
        left: 0,
        right: 0,
        strands: 1,
        class: 2,
        put: UNKNOWN_CLASS,
    },
];

// The cells of that design in the end.
const CELLS: [PlainLink; 6] = [
    PlainLink {
        left: 0,
        right: 0,
        strands: 255,
        class: Class::Ordinary,
    },
    PlainLink {
        left: 0,
        right: 1,
        strands: 7,
        class: Class::Trunk,
    },
    PlainLink {
        left: 0,
        right: 2,
        strands: 0,
        class: Class::Ordinary,
    },
    PlainLink {
        left: 1,
        right: 0,
        strands: 11,
        class: Class::Trunk,
    },
    PlainLink {
        left: 1,
        right: 1,
        strands: 0,
        class: Class::Ordinary,
    },
    PlainLink {
        left: 1,
        right: 2,
        strands: 255,
        class: Class::Ordinary,
    },
];

fn check_sizes(rt: &impl Abort) -> Result<(), Fail> {
    for case in SIZES {
        let made = case.sizes.empty().map(|design| Sizes {
            left: design.left_size(),
            right: design.right_size(),
        });
        assert_eq!(rt; made, case.expected.map(|()| case.sizes));
    }
    Ok(())
}

fn check_links(rt: &impl Abort) -> Result<(), Fail> {
    let mut design = Design::empty(2, 3)?;
    for case in LINKS {
        assert_eq!(rt;
            design.link(case.left, case.right, case.strands, case.class),
            case.put
        );
    }
    for case in CELLS {
        let cell = design.cell(case.left % 24, case.right % 24);
        // A `Cell` made to compare with would name the same two fields.
        assert_eq!(rt; cell.strands, case.strands);
        assert_eq!(rt; cell.class, case.class);
    }
    Ok(())
}

// The last cell of the largest design, and the switches behind it.
fn check_corner(rt: &impl Abort) -> Result<(), Fail> {
    let mut design = Design::empty(24, 24)?;
    assert_eq!(rt; design.link(23, 23, 255, 1), TRUNK);
    assert_eq!(rt; design.link(23, 23, 1, 0), CELL_FULL);
    assert_eq!(rt; design.link(24, 23, 1, 0), UNKNOWN_SWITCH);
    assert_eq!(rt; design.link(23, 24, 1, 0), UNKNOWN_SWITCH);
    // A `Cell` made to compare with would name the same two fields.
    assert_eq!(rt; design.cell(23, 23).strands, 255);
    assert_eq!(rt; design.cell(23, 23).class, Class::Trunk);
    Ok(())
}

#[test]
fn sizes_and_links(rt: HostRuntime) -> Result<(), Fail> {
    check_sizes(&rt)?;
    check_links(&rt)?;
    check_corner(&rt)
}
