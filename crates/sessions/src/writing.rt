ghost use Rattle.std.specs.Prelude.{◌≡◌, ◌+◌, ◌≤◌, ◌++◌, length, codes, decimal};
ghost use Rattle.designs.specs.Readings.{row_of};
ghost use Rattle.sessions.specs.Events.{telling_event, event_of};
ghost use Rattle.sessions.specs.Texts.{field, layer_name, offer_word, done_word, row_text, size_text, report_line, refusal_line, event_line, if_room, Writes};
ghost use Rattle.walks.specs.Reports.{values_of};

use crate::telling::Telling;
use arrayvec::{ArrayString, ArrayVec};
use designs::fault::Layer;
use designs::row::Row;
use itoa::Buffer;
use measures::line::{push_bytes, put_field};
use measures::measure::PrintingMeasure;
use scripts::command::LINE;
use scripts::fault::ScriptFault;
use walks::report::Report;

// The longest row that is written: 24 switches of two figures, parted by commas.
const LONGEST_ROW: usize = 71;

// The longest lines but a report's, so that a line costs no more than it is long: "refused" with a number of 3 figures, a
// layer of 6 letters and a place of 20 figures, and "opened" with 10 figures. An offer has no text: it is put into the line.
const LONGEST_REFUSAL: usize = 40;

const LONGEST_OPENED: usize = 18;

// The words of a line are pushed, and not printed by `write!` or a Display: nothing is known of what a failed one wrote, and
// a line's bytes are promised for every call.
fn layer_name(layer: Layer) -> &'static str
    ensures name { result.now ≡ layer_name layer }
    ensures short { length result.now ≤ 6 }
{
    match layer {
        Layer::Script => "script",
        Layer::Setup => "setup",
        Layer::Design => "design",
        Layer::Search => "search",
    }
}

// The flag of an offer as its word; the cost is told either way, so no enum holds the two.
fn offer_word(taken: bool) -> &'static str
    ensures word { result.now ≡ offer_word taken }
    ensures short { length result.now ≤ 5 }
{
    if taken { "taken" } else { "kept" }
}

// Adds a field to a line, and what ends it: a space, or byte 10 behind the last one. A line is bytes, as its amounts are.
fn push_field<const N: usize>(text: &mut ArrayVec<u8, N>, content: &[u8], end: &[u8])
    requires room { length text.old.items + length content.now + length end.now ≤ N }
    ensures { text.new.items ≡ text.old.items ++ (content.now ++ end.now) }
{
    push_bytes(text, content);
    push_bytes(text, end);
}

// The line of a refusal: its number, its layer and its place. A line's text fits the shortest line that a call takes.
fn refusal_text(fault: ScriptFault) -> ArrayVec<u8, LONGEST_REFUSAL>
    ensures { result.items ≡ refusal_line fault }
{
    let mut text = ArrayVec::new();
    push_field(&mut text, b"refused", b" ");
    push_field(
        &mut text,
        Buffer::new().format(fault.number()).as_bytes(),
        b" ",
    );
    push_field(&mut text, layer_name(fault.layer()).as_bytes(), b" ");
    push_field(
        &mut text,
        Buffer::new().format(fault.place()).as_bytes(),
        b"\n",
    );
    text
}

fn done_word(done: bool) -> &'static str
    ensures word { result.now ≡ done_word done }
    ensures short { length result.now ≤ 4 }
{
    if done { "done" } else { "open" }
}

// The switches of a row, parted by commas.
fn row_text(row: &Row) -> ArrayString<LONGEST_ROW>
    ensures { result.bytes ≡ row_text (row_of row.now) }
{
    let mut text = ArrayString::new();
    if let Some((first, others)) = row.switches().split_first() {
        text.push_str(Buffer::new().format(*first));
        for switch in others {
            text.push_str(",");
            text.push_str(Buffer::new().format(*switch));
        }
    }
    text
}

// A tree's size, or a dash where it is not told.
fn size_text(size: Option<u32>) -> ArrayString<10>
    ensures { result.bytes ≡ size_text size }
{
    let mut text = ArrayString::new();
    match size {
        Some(size) => text.push_str(Buffer::new().format(size)),
        None => text.push('-'),
    }
    text
}

// The line of a report.
fn report_text<P: PrintingMeasure>(report: &Report<P::Amount>) -> ArrayVec<u8, LINE>
    ensures { result.items ≡ report_line P.PrintingMeasure.written (values_of report.now) }
{
    let mut text = ArrayVec::new();
    push_field(&mut text, done_word(report.done).as_bytes(), b" ");
    push_field(
        &mut text,
        Buffer::new().format(report.opened).as_bytes(),
        b" ",
    );
    push_field(&mut text, P::write(report.cost).as_slice(), b" ");
    push_field(&mut text, P::write(report.floor).as_slice(), b" ");
    push_field(&mut text, size_text(report.size).as_str().as_bytes(), b" ");
    push_field(
        &mut text,
        row_text(&report.drawing.left).as_str().as_bytes(),
        b" ",
    );
    push_field(
        &mut text,
        row_text(&report.drawing.right).as_str().as_bytes(),
        b"\n",
    );
    text
}

// The line of how many nodes a search opened.
fn opened_text(opened: u32) -> ArrayVec<u8, LONGEST_OPENED>
    ensures { result.items ≡ field (codes "opened") 32 ++ field (decimal opened) 10 }
{
    let mut text = ArrayVec::new();
    push_field(&mut text, b"opened", b" ");
    push_field(&mut text, Buffer::new().format(opened).as_bytes(), b"\n");
    text
}

// Copies a line's text to the start of a lent line that has room for it, and answers how many bytes it wrote. `Writes` speaks
// of the line before and after, which no type can say.
fn write_text(line: &mut [u8], bytes: &[u8]) -> usize
    requires { length bytes.now ≤ length line.old }
    ensures { Writes line.old line.new result bytes.now }
{
    line[..bytes.len()].copy_from_slice(bytes);
    bytes.len()
}

// Each line is written by a function of its own: a call pays at its entry for the room of the texts that it holds, and most
// commands write nothing.
fn write_opened(line: &mut [u8], opened: u32) -> usize
    requires { 256 ≤ length line.old }
    ensures { Writes line.old line.new result (field (codes "opened") 32 ++ field (decimal opened) 10) }
{
    write_text(line, opened_text(opened).as_slice())
}

// The line of an offer: whether the drawing was taken, and its cost. It is put into the line field by field: offers come by the
// thousand, and a text between would be copied once more for each.
fn write_offer<P: PrintingMeasure>(line: &mut [u8], taken: bool, cost: P::Amount) -> usize
    requires { 256 ≤ length line.old }
    ensures { Writes line.old line.new result (field (offer_word taken) 32 ++ field (P.PrintingMeasure.written cost) 10) }
{
    let at = put_field(line, 0, offer_word(taken).as_bytes(), b' ');
    put_field(line, at, P::write(cost).as_slice(), b'\n')
}

fn write_report<P: PrintingMeasure>(line: &mut [u8], report: &Report<P::Amount>) -> usize
    requires { 256 ≤ length line.old }
    ensures { Writes line.old line.new result (report_line P.PrintingMeasure.written (values_of report.now)) }
{
    write_text(line, report_text::<P>(report).as_slice())
}

fn write_fault(line: &mut [u8], fault: ScriptFault) -> usize
    requires { 256 ≤ length line.old }
    ensures { Writes line.old line.new result (refusal_line fault) }
{
    write_text(line, refusal_text(fault).as_slice())
}

// Writes the line of what a command told; M, D, L and C write nothing.
fn write_telling<P: PrintingMeasure>(line: &mut [u8], telling: &Telling<P>) -> usize
    requires { 256 ≤ length line.old }
    ensures { Writes line.old line.new result (event_line P.PrintingMeasure.written (telling_event telling.now)) }
{
    match telling {
        Telling::Sized { .. } | Telling::Linked { .. } | Telling::Closed => 0,
        Telling::Searched { opened, .. } => write_opened(line, *opened),
        Telling::Offered { taken, cost } => write_offer::<P>(line, *taken, *cost),
        Telling::Reported(report) => write_report::<P>(line, report),
    }
}

// Writes a refusal, unless the line is too short.
pub fn write_refusal(line: &mut [u8], fault: ScriptFault) -> usize
    ensures writes { Writes line.old line.new result (if_room (length line.old) (refusal_line fault)) }
{
    if line.len() < LINE {
        return 0;
    }
    write_fault(line, fault)
}

// Writes what a call answers, unless the line is too short.
pub fn write_answer<P: PrintingMeasure>(
    line: &mut [u8],
    told: &Result<Telling<P>, ScriptFault>,
) -> usize
    ensures writes { Writes line.old line.new result (if_room (length line.old) (event_line P.PrintingMeasure.written (event_of told.now))) }
{
    if line.len() < LINE {
        return 0;
    }
    match told {
        Ok(telling) => write_telling::<P>(line, telling),
        Err(fault) => write_fault(line, *fault),
    }
}
