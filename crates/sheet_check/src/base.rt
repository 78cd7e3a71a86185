// A good sheet with every kind of record, cut off at every length and changed at every byte.
use crate::comparison::Comparison;
use crate::plain::{at, by_sheet};
use refusal::Reason;
use trial_tools::Tally;

// A share of 9 in 10 of a timetable of 60 slots, all but four of which are given, and three lines. 62 is 40 + 12 + 10 and 19 is
// 7 + 12, so the cites of the two certificates ask for no more than the deadline on every supply.
const SHEET: [u8; 75] = *b"SU\x3c\x0f\xff\xdf\xff\x7f\xff\xef\xfe\x09\x0a\
    LN\0\x07\0\x05\0\x01\
    LN\0\x0b\0\x07\0\x01\
    LN\0\x0d\0\x0a\0\x01\
    CU\0\x3e\0\x01\x03\0\x28\0\x01\0\x0c\0\x01\0\x0a\0\x01\
    CU\0\x13\0\x01\x02\0\x07\0\x01\0\x0c\0\x01\
    EN\0\x06";

// Where its records begin.
static STARTS: [usize; 7] = [0, 13, 21, 29, 37, 56, 71];

// Cuts the sheet off at every length that is shorter than its own: the record is refused that is cut short or missing there.
pub(crate) fn compare_cut_off(comparison: &mut Comparison) -> Tally {
    let mut group = Tally::of("a sheet cut off at every length");
    let mut record = 0usize;
    let mut start = 0;
    for length in 0..SHEET.len() {
        if STARTS.contains(&length) {
            record = record.saturating_add(1);
            start = length;
        }
        let refused = at(by_sheet(Reason::SheetCutShort), record, start);
        comparison.compare_refused(&mut group, &SHEET[..length], refused);
    }
    group
}

// Changes every byte of the sheet to 0, to 255, and to its two neighbours.
pub(crate) fn compare_changed(comparison: &mut Comparison) -> Tally {
    let mut group = Tally::of("a sheet changed at every byte");
    for place in 0..SHEET.len() {
        let mut sheet = SHEET;
        let byte = sheet[place];
        for other in [0, 255, byte.wrapping_add(1), byte.wrapping_sub(1)] {
            sheet[place] = other;
            comparison.compare(&mut group, &sheet);
        }
    }
    comparison.compare(&mut group, &SHEET);
    group
}
