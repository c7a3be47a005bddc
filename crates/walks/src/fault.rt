ghost use Rattle.std.specs.Prelude.{◌≡◌};
ghost use Rattle.walks.specs.Runs.{run_number};

// Why a run is refused, and the number of each refusal: 0 or more than 1,000,000 nodes asked for, or more than
// 1,000,000,000 with those opened before. It is told by its number, so it has no Display; and no trait of numbers, as `as`
// takes no type parameter.
#[derive(Clone, Copy, PartialEq, Eq, Debug)]
pub enum RunFault {
    Nodes = 13,
    Total = 14,
}

impl RunFault {
    // The number by which the fault is known.
    pub fn number(&self) -> u8
        ensures { result ≡ run_number self.now }
    {
        *self as u8
    }
}
