ghost use Rattle.std.specs.Prelude.{◌≡◌};
ghost use Rattle.designs.specs.Faults.{link_number, design_number, row_number, at_place};
ghost use Rattle.designs.specs.declared.fault.LinkFault.TheVariants.{UnknownClass as NoSuchClass};
ghost use Rattle.designs.specs.declared.fault.DesignFault.TheVariants.{InLink};

use measures::link::UnknownClass;

// The layer that a fault belongs to.
#[derive(Clone, Copy, PartialEq, Eq, Debug)]
pub enum Layer {
    Script,
    Setup,
    Design,
    Search,
}

// Why a link is refused, and the number of each refusal. Each fault says its own number: `as` takes no type parameter, so a
// trait would have this body again in each impl. It is told by number, layer and place: so it has no Display.
#[derive(Clone, Copy, PartialEq, Eq, Debug)]
pub enum LinkFault {
    UnknownSwitch = 9,
    NoStrands = 10,
    UnknownClass = 11,
    CellFull = 12,
}

impl LinkFault {
    pub fn number(&self) -> u8
        ensures { result ≡ link_number self.now }
    {
        *self as u8
    }
}

impl From<UnknownClass> for LinkFault {
    ghost from_gives = { λ _ r. r ≡ NoSuchClass };

    fn from(_: UnknownClass) -> LinkFault {
        LinkFault::UnknownClass
    }
}

// Why a design, or a link in it, is refused. A variant that holds a fault has that fault's number, which no discriminant
// can say. No Display, as above.
#[derive(Clone, Copy, PartialEq, Eq, Debug)]
pub enum DesignFault {
    Size,
    InLink(LinkFault),
}

impl DesignFault {
    pub fn number(&self) -> u8
        ensures { result ≡ design_number self.now }
    {
        match self {
            DesignFault::Size => 8,
            DesignFault::InLink(fault) => fault.number(),
        }
    }
}

impl From<LinkFault> for DesignFault {
    ghost from_gives = { λ f r. r ≡ InLink f };

    fn from(fault: LinkFault) -> DesignFault {
        DesignFault::InLink(fault)
    }
}

// Which row of a drawing is no order of its side's switches and then 255s, and the number of the refusal: no trait of
// numbers and no Display, as above.
#[derive(Clone, Copy, PartialEq, Eq, Debug)]
pub enum RowFault {
    LeftRow = 15,
    RightRow = 16,
}

impl RowFault {
    pub fn number(&self) -> u8
        ensures { result ≡ row_number self.now }
    {
        *self as u8
    }
}

// A cause, and the place where it was found.
#[derive(Clone, Copy, PartialEq, Eq, Debug)]
pub struct Placed<F> {
    pub cause: F,
    pub place: usize,
}

// Gives a fault its place.
pub fn at_place<T, F>(res: Result<T, F>, place: usize) -> Result<T, Placed<F>>
    ensures { result ≡ at_place res place }
{
    res.map_err(|cause| Placed { cause, place })
}
