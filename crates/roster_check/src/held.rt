// What a roster holds: its lines, and the deadlines that it watches.
use lines::{Lines, Row};
use roster::Roster;
use short_list::ShortList;
use trial_tools::row;

// The rows of some lines, by number.
pub(crate) fn rows_of(lines: &Lines) -> ShortList<Row, 8> {
    let mut rows = ShortList::none(row!(0, 0, 0));
    for line in lines.iter() {
        let _ = rows.push(line.row());
    }
    rows
}

// Whether a roster has lines of these rows, by number, and watches these deadlines, and no other.
pub(crate) fn holds<S>(roster: &Roster<S>, rows: &[Row], watched: &[u16]) -> bool {
    rows_of(roster.lines()).as_slice() == rows && roster.watched().as_slice() == watched
}
