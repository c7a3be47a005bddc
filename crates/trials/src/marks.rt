ghost use Rattle.measures.specs.Prices.{strand_price};
ghost use Rattle.measures.specs.SumLaws.{strands_exchanged};
ghost use Rattle.trials.specs.Marks.{mark_written, mark_short, mark_unbroken};

use arrayvec::ArrayVec;
use measures::link::Link;
use measures::measure::{LONGEST_AMOUNT, Measure, PrintingMeasure};
use measures::strands::ByStrands;
use measures::sum::Sum;
use partials::delivered::Rule;
use sessions::measured::MeasuredSession;
use std::process::Abort;
use std::test::*;

// A measure of somebody's own: priced by strands, and written in a byte that is no UTF-8, as a measure may be.
struct ByMarks;

impl Measure for ByMarks {
    type Amount = Sum;

    const NUMBER: u8 = 9;

    ghost NUMBER = { 9 };

    ghost priced = { strand_price };

    ghost exchanged = { strands_exchanged };

    fn price(a: Link, b: Link) -> Sum {
        ByStrands::price(a, b)
    }
}

impl PrintingMeasure for ByMarks {
    ghost written = { mark_written };

    ghost short = { mark_short };

    ghost unbroken = { mark_unbroken };

    fn write(_: Sum) -> ArrayVec<u8, LONGEST_AMOUNT> {
        let mut text = ArrayVec::new();
        text.push(183);
        text
    }
}

// A session with that measure: the design of two links that cross is closed, and its first drawing offered again.
#[test]
fn amounts_that_are_no_utf8(rt: HostRuntime) {
    let mut script = [255; 63];
    script[..15].copy_from_slice(b"D\x02\x02L\x00\x01\x02\x00L\x01\x00\x03\x00CO");
    script[15] = 0;
    script[16] = 1;
    script[39] = 0;
    script[40] = 1;
    let mut session = MeasuredSession::<ByMarks, Rule>::new(Rule::Lesser);
    let mut line = [0; 256];
    for place in [0, 3, 8, 13] {
        assert_eq!(rt; session.call_on_line(&script, place, &mut line).wrote, 0);
    }
    assert_eq!(rt; session.call_on_line(&script, 14, &mut line).wrote, 7);
    assert_eq!(rt; &line[..8], b"kept \xb7\n\x00".as_slice());
}
