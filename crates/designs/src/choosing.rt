ghost use Rattle.std.specs.Prelude.{◌≡◌};
ghost use Rattle.designs.specs.Choosing.{read_part, choice, part_number, part_layer};
ghost use Rattle.designs.specs.Grids.{grid_of};
ghost use Rattle.designs.specs.Results.{on_ok};
ghost use Rattle.designs.specs.Readings.{rows_of, cost_of};
ghost use Rattle.designs.specs.declared.choosing.PartFault.TheVariants.{InRow};

use crate::design::Design;
use crate::drawing::Drawing;
use crate::fault::{Layer, Placed, RowFault, at_place};
use measures::amount::Amount;
use measures::measure::Measure;

// Why a part is no drawing of the design. A variant that holds a row's fault has that fault's number, which no discriminant
// can say; layers are the format's. It is told by number, layer and place: so it has no Display.
#[derive(Clone, Copy, PartialEq, Eq, Debug)]
pub enum PartFault {
    Length,
    InRow(RowFault),
}

// A part's fault, and which part it is: 0 or 1.
pub type ChoiceFault = Placed<PartFault>;

impl From<RowFault> for PartFault {
    ghost from_gives = { λ f r. r ≡ InRow f };

    fn from(cause: RowFault) -> PartFault {
        PartFault::InRow(cause)
    }
}

impl PartFault {
    pub fn number(&self) -> u8
        ensures { result ≡ part_number self.now }
    {
        match self {
            PartFault::Length => 4,
            PartFault::InRow(fault) => fault.number(),
        }
    }

    pub fn layer(&self) -> Layer
        ensures { result ≡ part_layer self.now }
    {
        match self {
            PartFault::Length => Layer::Script,
            PartFault::InRow(_) => Layer::Search,
        }
    }
}

// Reads a part: a drawing of the design in 48 bytes.
pub fn read_part(design: &Design, bytes: &[u8]) -> Result<Drawing, PartFault>
    ensures { on_ok rows_of result ≡ read_part (grid_of design.now) bytes.now }
{
    if bytes.len() != 48 {
        return Err(PartFault::Length);
    }
    let drawing = Drawing::read(design, bytes)?;
    Ok(drawing)
}

// Hands out the cheaper of two parts itself, the first on a tie.
pub fn choose<'a, M: Measure>(
    design: &Design,
    first: &'a [u8],
    second: &'a [u8],
) -> Result<&'a [u8], ChoiceFault>
    ensures { result ≡ choice M.Amount.Amount.kind (cost_of M.Amount.Amount.kind M.Measure.priced (grid_of design.now)) (read_part (grid_of design.now) first.now) (read_part (grid_of design.now) second.now) first.entry second.entry }
{
    let one = at_place(read_part(design, first), 0)?;
    let two = at_place(read_part(design, second), 1)?;
    let keeps_first = design.cost::<M>(&one).is_at_most(design.cost::<M>(&two));
    if keeps_first { Ok(first) } else { Ok(second) }
}
