use crate::explanation::reasoning::Reasoning;
use lines::{Line, Row};
use std::fmt;

// An instant at which no line has a job due.
#[derive(Drop)]
pub(crate) struct Absent {
    pub(crate) at: u16,
}

impl Reasoning for Absent {
    fn open<W: fmt::Write>(&self, f: &mut fmt::Formatter<W>) -> fmt::Result {
        let at = self.at;
        write!(
            f,
            "{at} is no deadline of this roster, so it is not watched\n"
        )
    }

    // The deadlines of the line around the instant.
    fn line<W: fmt::Write>(&self, f: &mut fmt::Formatter<W>, line: Line) -> fmt::Result {
        let Row {
            period,
            deadline,
            ..
        } = line.row();
        let next = line.deadline_after(self.at);
        if line.count(self.at) == 0 {
            return write!(f, " is due at {deadline} + k x {period}: first at {next}\n");
        }
        let last = next.saturating_sub(u32::from(period));
        write!(
            f,
            " is due at {deadline} + k x {period}: last at {last}, next at {next}\n"
        )
    }

    fn close<W: fmt::Write>(&self, f: &mut fmt::Formatter<W>) -> fmt::Result {
        f.write_str("demand grows only at deadlines, and least never falls\n")
    }
}
