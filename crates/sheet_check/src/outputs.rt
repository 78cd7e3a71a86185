// What the library reports on a sheet, and what it writes of the lines that a sheet leaves, in lists that are lent to it.
use crate::alike::{same_lines, same_supply};
use crate::comparison::Comparison;
use crate::draft::Draft;
use crate::plain;
use crate::plain::Outcome;
use crate::told::told;
use grammar::Fields;
use lines::Lines;
use refusal::{Layer, Reason, Refusal};
use roster::Roster;
use supply::Named;
use trial_tools::{Tally, holds};

// What every byte of a list holds before the call.
pub(crate) const BEFORE: u8 = 250;

// Room for every text, and more.
const ROOM: usize = 128;

// Whether a call answers what it should, and writes a text over the front of the list, or leaves the list as it is.
pub(crate) fn is_written(answer: Result<usize, Refusal>, list: &[u8], text: &[u8]) -> bool {
    let needed = text.len();
    if needed <= list.len() {
        return answer == Ok(needed) && holds(list, text, BEFORE);
    }
    let refusal = Refusal::by(Layer::Sheet, Reason::ListTooShort).at(needed.min(65_535) as u32);
    answer == Err(refusal) && holds(list, &[], BEFORE)
}

// What the library writes: the report on a sheet, or the sheet of some lines with some fields.
#[derive(Clone, Copy)]
enum Output<'a> {
    Report(&'a [u8]),
    Sheet(&'a Lines, Fields),
}

// The call that writes an output.
fn write(output: Output<'_>, list: &mut [u8]) -> Result<usize, Refusal> {
    match output {
        Output::Report(bytes) => sheet::report(bytes, list),
        Output::Sheet(lines, fields) => sheet::write(lines, fields, list),
    }
}

// Compares an output with a text, in lists that are too short by one, just long enough, and longer.
fn compare_text(tally: &mut Tally, output: Output<'_>, text: &[u8]) {
    let needed = text.len();
    for room in [needed.saturating_sub(1), needed, needed.saturating_add(3)] {
        let mut list = [BEFORE; ROOM];
        let lent = &mut list[..room.min(ROOM)];
        let answer = write(output, lent);
        tally.note(is_written(answer, lent, text));
    }
}

impl Comparison {
    // The report on a sheet.
    pub(crate) fn compare_report(&mut self, bytes: &[u8], outcome: &Outcome) {
        let text = told(outcome);
        compare_text(&mut self.reported, Output::Report(bytes), text.as_slice());
    }

    // The lines of a sheet that is accepted, written with its own fields.
    pub(crate) fn compare_written(&mut self, bytes: &[u8], roster: &Roster<Named>) {
        let fields = plain::fields(bytes);
        let draft = Draft::of(fields, roster.lines());
        let text = draft.bytes.as_slice();
        compare_text(
            &mut self.written,
            Output::Sheet(roster.lines(), fields),
            text,
        );
        self.read_back.note(is_read_back(text, roster));
        if text.len() == bytes.len() {
            self.rewritten.note(text == bytes);
        }
    }
}

// Whether a written sheet brings back the lines of a roster, over its supply.
fn is_read_back(text: &[u8], roster: &Roster<Named>) -> bool {
    match sheet::from_bytes(text) {
        Ok(back) => {
            same_lines(back.lines(), roster.lines()) && same_supply(back.supply(), roster.supply())
        }
        Err(_) => false,
    }
}
