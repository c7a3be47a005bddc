ghost use Rattle.std.specs.Prelude.{◌≡◌};
ghost use Rattle.scripts.specs.Faults.{setup_number, search_number, number_of, layer_of, place_of};
ghost use Rattle.scripts.specs.declared.fault.SetupFault.TheVariants.{UnknownRule as NoSuchRule};
ghost use Rattle.scripts.specs.declared.fault.SearchFault.TheVariants.{InRow, InRun};
ghost use Rattle.scripts.specs.declared.fault.ScriptFault.TheVariants.{InSetup, InDesign, InSearch};

use designs::fault::{DesignFault, Layer, RowFault};
pub use designs::fault::{Placed, at_place};
use partials::delivered::UnknownRule;
use walks::fault::RunFault;

// Why a choice of measure and rule is refused, and the number of each refusal. Told by its number, so no Display; and no
// trait of numbers, as `as` takes no type parameter.
#[derive(Clone, Copy, PartialEq, Eq, Debug)]
pub enum SetupFault {
    UnknownMeasure = 6,
    UnknownRule = 7,
}

// Why a command to a search is refused. Its number is that of the fault it holds, which no discriminant can say; told by
// number, layer and place, so no Display.
#[derive(Clone, Copy, PartialEq, Eq, Debug)]
pub enum SearchFault {
    InRow(RowFault),
    InRun(RunFault),
}

// Why a call is refused. A layer's fault stands beside its place, nested and carried by `?` and From as a project rule asks,
// so each layer has a variant and a conversion of its own. Its words are a line's: number, layer and place, and no Display.
#[derive(Clone, Copy, PartialEq, Eq, Debug)]
pub enum ScriptFault {
    ShortLine { place: usize },
    LongScript,
    UnknownLetter { place: usize },
    CutOff { place: usize },
    WrongCondition { place: usize },
    InSetup { cause: SetupFault, place: usize },
    InDesign { cause: DesignFault, place: usize },
    InSearch { cause: SearchFault, place: usize },
}

impl From<UnknownRule> for SetupFault {
    ghost from_gives = { λ _ r. r ≡ NoSuchRule };

    fn from(_: UnknownRule) -> SetupFault {
        SetupFault::UnknownRule
    }
}

impl From<RowFault> for SearchFault {
    ghost from_gives = { λ f r. r ≡ InRow f };

    fn from(cause: RowFault) -> SearchFault {
        SearchFault::InRow(cause)
    }
}

impl From<RunFault> for SearchFault {
    ghost from_gives = { λ f r. r ≡ InRun f };

    fn from(cause: RunFault) -> SearchFault {
        SearchFault::InRun(cause)
    }
}

impl From<Placed<SetupFault>> for ScriptFault {
    ghost from_gives = { λ f r. r ≡ InSetup f.cause f.place };

    fn from(Placed { cause, place }: Placed<SetupFault>) -> ScriptFault {
        ScriptFault::InSetup { cause, place }
    }
}

impl From<Placed<DesignFault>> for ScriptFault {
    ghost from_gives = { λ f r. r ≡ InDesign f.cause f.place };

    fn from(Placed { cause, place }: Placed<DesignFault>) -> ScriptFault {
        ScriptFault::InDesign { cause, place }
    }
}

impl From<Placed<SearchFault>> for ScriptFault {
    ghost from_gives = { λ f r. r ≡ InSearch f.cause f.place };

    fn from(Placed { cause, place }: Placed<SearchFault>) -> ScriptFault {
        ScriptFault::InSearch { cause, place }
    }
}

impl SetupFault {
    pub fn number(&self) -> u8
        ensures { result ≡ setup_number self.now }
    {
        *self as u8
    }
}

impl SearchFault {
    pub fn number(&self) -> u8
        ensures { result ≡ search_number self.now }
    {
        match self {
            SearchFault::InRow(fault) => fault.number(),
            SearchFault::InRun(fault) => fault.number(),
        }
    }
}

impl ScriptFault {
    // The number by which the fault is known; a variant with fields has no discriminant that `as` reads.
    pub fn number(&self) -> u8
        ensures { result ≡ number_of self.now }
    {
        match self {
            ScriptFault::ShortLine { .. } => 1,
            ScriptFault::LongScript => 2,
            ScriptFault::UnknownLetter { .. } => 3,
            ScriptFault::CutOff { .. } => 4,
            ScriptFault::WrongCondition { .. } => 5,
            ScriptFault::InSetup { cause, .. } => cause.number(),
            ScriptFault::InDesign { cause, .. } => cause.number(),
            ScriptFault::InSearch { cause, .. } => cause.number(),
        }
    }

    // The layer that refused. Layers are the format's, and more than one variant has the script's.
    pub fn layer(&self) -> Layer
        ensures { result ≡ layer_of self.now }
    {
        match self {
            ScriptFault::InSetup { .. } => Layer::Setup,
            ScriptFault::InDesign { .. } => Layer::Design,
            ScriptFault::InSearch { .. } => Layer::Search,
            _ => Layer::Script,
        }
    }

    // The byte of the script that was given to the call; 0 for a script that is too long. Each variant holds its place, as a
    // project rule nests them; only `LongScript` has none.
    pub fn place(&self) -> usize
        ensures { result ≡ place_of self.now }
    {
        match self {
            ScriptFault::LongScript => 0,
            ScriptFault::ShortLine { place }
            | ScriptFault::UnknownLetter { place }
            | ScriptFault::CutOff { place }
            | ScriptFault::WrongCondition { place }
            | ScriptFault::InSetup { place, .. }
            | ScriptFault::InDesign { place, .. }
            | ScriptFault::InSearch { place, .. } => *place,
        }
    }
}
