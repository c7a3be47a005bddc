ghost use Rattle.std.specs.Prelude.{◌≡◌};
ghost use Rattle.measures.specs.Prices.{is_trunk, product};
ghost use Rattle.measures.specs.Classes.{read_class, either_class};

// The class of a link.
#[derive(Clone, Copy, PartialEq, Eq, Debug)]
pub enum Class {
    Ordinary = 0,
    Trunk = 1,
}

// A number that names no class. It is carried into a fault that is told by its number, so it has no Display.
#[derive(Clone, Copy, PartialEq, Eq, Debug)]
pub struct UnknownClass;

// Scripts name an ordinary link's class 0 and a trunk's 1.
impl TryFrom<u8> for Class {
    type Error = UnknownClass;

    ghost try_from_gives = { λ number r. r ≡ read_class number };

    fn try_from(number: u8) -> Result<Class, UnknownClass> {
        match number {
            0 => Ok(Class::Ordinary),
            1 => Ok(Class::Trunk),
            _ => Err(UnknownClass),
        }
    }
}

impl Class {
    // The number by which a script names the class: it is read back as this class.
    pub fn number(self) -> u8
        ensures { read_class result ≡ Ok self }
    {
        self as u8
    }

    pub fn is_trunk(self) -> bool
        ensures { result ≡ is_trunk self }
    {
        matches!(self, Class::Trunk)
    }

    // A trunk if one of the two is.
    pub fn either(self, other: Class) -> Class
        ensures { result ≡ either_class self other }
    {
        // Both are asked, with no branch between: each pair of links is priced by this.
        if self.is_trunk() | other.is_trunk() {
            Class::Trunk
        } else {
            Class::Ordinary
        }
    }
}

// What a crossing is priced by: how many strands a link has, and its class. A cell of a design may have no link and a Link is
// one, so a type of its own keeps what prices links from being called with a cell by mistake.
#[derive(Clone, Copy)]
pub struct Link {
    pub strands: u8,
    pub class: Class,
}

impl Link {
    // The product of the strands.
    pub(crate) fn product(self, other: Link) -> u64
        ensures { result ≡ product self other }
    {
        u64::from(self.strands) * u64::from(other.strands)
    }
}
