ghost use Rattle.std.specs.Prelude.{◌≡◌};
ghost use Rattle.measures.specs.Writings.{strand_written};
ghost use Rattle.measures.specs.Prices.{strand_price};
ghost use Rattle.measures.specs.declared.sum.Sum.{Sum};
ghost use Rattle.measures.specs.SumLaws.{strands_exchanged};
ghost use Rattle.measures.specs.WritingLaws.{strand_short, strand_unbroken};

use crate::amount::Amount;
use crate::line::push_bytes;
use crate::link::Link;
use crate::measure::{LONGEST_AMOUNT, Measure, PrintingMeasure};
use crate::sum::Sum;
use arrayvec::ArrayVec;
use itoa::Buffer;

// Measure 1: the product of the strands, summed.
#[derive(Clone, Copy)]
pub struct ByStrands;

impl Measure for ByStrands {
    type Amount = Sum;

    const NUMBER: u8 = 1;

    ghost NUMBER = { 1 };

    ghost priced = { strand_price };

    ghost exchanged = { strands_exchanged };

    fn price(a: Link, b: Link) -> Sum {
        Sum::from(a.product(b))
    }
}

impl PrintingMeasure for ByStrands {
    ghost written = { strand_written };

    ghost short = { strand_short };

    ghost unbroken = { strand_unbroken };

    fn write(amount: Sum) -> ArrayVec<u8, LONGEST_AMOUNT> {
        let mut text = ArrayVec::new();
        push_bytes(&mut text, Buffer::new().format(amount.value).as_bytes());
        text
    }
}
