// A roster by the definitions: its lines, and which deadlines are watched.
use crate::certificate::Certificate;
use crate::figures::{Deadlines, Figures, LAST, at, counts, deadlines, demand};
use lines::{Lines, Row};
use roster::{Call, Roster};
use short_list::ShortList;
use trial_tools::row;

// The rows of lines, by number.
type Rows = ShortList<Row, 8>;

// The rows of no line.
fn no_rows() -> Rows {
    ShortList::none(row!(0, 0, 0))
}

// The rows of some lines.
fn rows_of(lines: &Lines) -> Rows {
    let mut rows = no_rows();
    for line in lines.iter() {
        let _ = rows.push(line.row());
    }
    rows
}

// (Short lists, which need no heap. They are only pushed to and read: what the library takes out or replaces by a call of the list is left
// out or written anew by hand.)
#[derive(Clone, Copy)]
pub(crate) struct Model {
    pub(crate) rows: Rows,
    pub(crate) watched: Deadlines,
}

impl Model {
    // Neither a line nor a deadline.
    pub(crate) fn none() -> Model {
        Model {
            rows: no_rows(),
            watched: ShortList::none(0),
        }
    }

    // One line more.
    fn enrol(&mut self, row: Row) {
        let _ = self.rows.push(row);
        self.watched = deadlines(self.rows.as_slice());
    }

    // A line leaves, and the later ones are numbered one lower.
    fn strike(&mut self, number: u8) {
        let mut left = Model::none();
        for line in 0..self.rows.len() {
            if line != usize::from(number) {
                left.enrol(self.rows.as_slice()[line]);
            }
        }
        *self = left;
    }

    // A line gets a new cost.
    fn recost(&mut self, number: u8, cost: u16) {
        let mut rows = no_rows();
        for (line, row) in self.rows.as_slice().iter().enumerate() {
            let cost = if line == usize::from(number) {
                cost
            } else {
                row.cost
            };
            let _ = rows.push(Row { cost, ..*row });
        }
        self.rows = rows;
    }

    // Watches a deadline no more.
    fn leave(&mut self, t: u16) {
        let mut left = ShortList::none(0);
        for d in self.watched.as_slice() {
            if *d != t {
                let _ = left.push(*d);
            }
        }
        self.watched = left;
    }

    // Makes a call that is not refused.
    pub(crate) fn make(&mut self, call: Call) {
        match call {
            Call::Enrol(row) => self.enrol(row),
            Call::Strike(line) => self.strike(line),
            Call::Recost { line, cost } => self.recost(line, cost),
            Call::Cut { deadline, .. } => self.leave(deadline),
        }
    }

    // Whether a roster has these lines, by number, and watches these deadlines, and no other.
    pub(crate) fn is_held<S>(&self, roster: &Roster<S>) -> bool {
        rows_of(roster.lines()).as_slice() == self.rows.as_slice()
            && roster.watched().as_slice() == self.watched.as_slice()
    }

    // The first instant by which more is due than any so many slots are sure to hold: a deadline.
    pub(crate) fn overload(&self, least: &Figures) -> Option<u16> {
        let demand = demand(self.rows.as_slice());
        for t in 1..=LAST {
            if at(&demand, t) > at(least, t) {
                return Some(t);
            }
        }
        None
    }

    // Whether a deadline and its cites are watched, and it does not cite itself.
    fn is_watched(&self, certificate: &Certificate) -> bool {
        for cite in certificate.cites.as_slice() {
            if cite.deadline == certificate.deadline
                || !self.watched.as_slice().contains(&cite.deadline)
            {
                return false;
            }
        }
        self.watched.as_slice().contains(&certificate.deadline)
    }

    // Whether a certificate is right: its cites cover the count of each line, and ask for no more slots than are sure.
    pub(crate) fn accepts(&self, certificate: &Certificate, least: &Figures) -> bool {
        for row in self.rows.as_slice() {
            let counts = counts(row);
            if certificate.own(&counts) > certificate.cited(&counts) {
                return false;
            }
        }
        self.is_watched(certificate) && certificate.cited(least) <= certificate.own(least)
    }
}
