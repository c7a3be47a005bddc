ghost use Rattle.std.specs.Prelude.{◌≡◌, cond};
ghost use Rattle.measures.specs.Writings.{trunk_written};
ghost use Rattle.measures.specs.Pairs.{pair_held};
ghost use Rattle.measures.specs.Prices.{trunk_price};
ghost use Rattle.measures.specs.declared.pair.Pair.{Pair};
ghost use Rattle.measures.specs.PairLaws.{trunks_exchanged};
ghost use Rattle.measures.specs.WritingLaws.{trunk_short, trunk_unbroken};

use crate::amount::Amount;
use crate::line::push_bytes;
use crate::link::Link;
use crate::measure::{LONGEST_AMOUNT, Measure, PrintingMeasure};
use crate::pair::Pair;
use arrayvec::ArrayVec;
use itoa::Buffer;

// Measure 2: the product of the strands, trunk crossings before all others.
#[derive(Clone, Copy)]
pub struct ByTrunks;

// A product as the price of a trunk crossing, or of another. The rest is what is left of the product, so that one number is chosen
// and not two: classes come in no order, and where the compiler makes a branch of two, a search of many trunks takes half as
// long again.
fn booked(product: u64, as_trunk: bool) -> Pair
    ensures { result ≡ cond as_trunk (pair_held product 0) (pair_held 0 product) }
{
    let trunk = if as_trunk { product } else { 0 };
    Pair::of(trunk, product - trunk)
}

impl Measure for ByTrunks {
    type Amount = Pair;

    const NUMBER: u8 = 2;

    ghost NUMBER = { 2 };

    ghost priced = { trunk_price };

    ghost exchanged = { trunks_exchanged };

    fn price(a: Link, b: Link) -> Pair {
        booked(a.product(b), a.class.either(b.class).is_trunk())
    }
}

impl PrintingMeasure for ByTrunks {
    ghost written = { trunk_written };

    ghost short = { trunk_short };

    ghost unbroken = { trunk_unbroken };

    fn write(amount: Pair) -> ArrayVec<u8, LONGEST_AMOUNT> {
        let mut text = ArrayVec::new();
        push_bytes(&mut text, Buffer::new().format(amount.trunk).as_bytes());
        push_bytes(&mut text, b"/");
        push_bytes(&mut text, Buffer::new().format(amount.rest).as_bytes());
        text
    }
}
