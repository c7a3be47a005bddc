ghost use Rattle.std.specs.Prelude.{◌≡◌, ℕ, ◌<◌, ◌≤◌, List, length};
ghost use Rattle.measures.specs.Unbroken.{NoSpace};
ghost use Rattle.measures.specs.declared.link.Link.{Link};

use crate::amount::Amount;
use crate::link::Link;
use arrayvec::ArrayVec;

// The longest amount has this many bytes.
pub const LONGEST_AMOUNT: usize = 41;

// Two numbers of 20 figures and a slash.
const _: () = prove!(LONGEST_AMOUNT == 20 + 1 + 20);

// What a crossing of two links costs, and in which kind of amount it is counted. Definitions take the kind and the prices
// apart, since the laws of amounts speak of the kind alone.
pub trait Measure {
    type Amount: Amount;

    // the number by which a script names the measure: a project rule asks for a constant
    const NUMBER: u8;

    ghost NUMBER: { ℕ };

    ghost priced: { Link → Link → Self.Amount };

    fn price(a: Link, b: Link) -> Self::Amount
        ensures { result ≡ priced a b };

    ghost exchanged: { (a b : Link) → priced a b ≡ priced b a };
}

// A measure that also writes its amounts: 1 to 41 bytes, none of them a space, and nothing else is asked of them. It gives
// bytes, and no string, which would have to be UTF-8; nor does it print by `write!`, of which nothing is known where it fails.
pub trait PrintingMeasure: Measure {
    ghost written: { Self.Amount → List ℕ };

    fn write(amount: Self::Amount) -> ArrayVec<u8, LONGEST_AMOUNT>
        ensures { result.items ≡ written amount };

    ghost short: { (x : Self.Amount) → (0 < length (written x)) × (length (written x) ≤ 41) };

    ghost unbroken: { (x : Self.Amount) → NoSpace (written x) };
}
