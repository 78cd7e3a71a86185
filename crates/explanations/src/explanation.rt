// Why a deadline is or is not watched, with the sums worked out.
mod absent;
mod beyond;
mod covered;
mod reasoning;
mod watched;

use crate::certificate::Certificate;
use crate::explanation::absent::Absent;
use crate::explanation::beyond::Beyond;
use crate::explanation::covered::Covered;
use crate::explanation::reasoning::explain;
use crate::explanation::watched::Watched;
use lines::{Line, Row};
use roster::Roster;
use std::fmt;
use supply::Supply;

// The instant that is asked about, and the certificate by which it was cut, if it was.
#[derive(Drop)]
pub struct Explanation<'a, S> {
    pub roster: &'a Roster<S>,
    pub at: u16,
    pub cut: Option<&'a Certificate>,
}

impl<'a, S: Supply> Explanation<'a, S> {
    // Whether a line has a job due just at the instant.
    fn is_due(&self, line: Line) -> bool {
        self.at > 0 && line.count(self.at) > line.count(self.at - 1)
    }

    // Names a line that has a job due just at the instant.
    fn owner<W: fmt::Write>(
        &self,
        f: &mut fmt::Formatter<W>,
        number: usize,
        line: Line,
    ) -> fmt::Result {
        let at = self.at;
        let Row {
            period,
            deadline,
            ..
        } = line.row();
        let turns = line.count(at).saturating_sub(1);
        write!(
            f,
            "{at} is a deadline of line {number}: {deadline} + {turns} x {period}\n"
        )
    }

    // Names each such line, and answers whether there is one.
    fn owners<W: fmt::Write>(&self, f: &mut fmt::Formatter<W>) -> Result<bool, fmt::Error> {
        let mut found = false;
        for (number, line) in self.roster.lines().iter().enumerate() {
            if self.is_due(line) {
                self.owner(f, number, line)?;
                found = true;
            }
        }
        Ok(found)
    }
}

impl<'a, S: Supply> fmt::Display for Explanation<'a, S> {
    fn fmt<W: fmt::Write>(&self, f: &mut fmt::Formatter<W>) -> fmt::Result {
        let roster = self.roster;
        let lines = roster.lines();
        let at = self.at;
        if !self.owners(f)? {
            return explain(f, lines, &Absent { at });
        }
        if roster.watched().contains(at) {
            return explain(f, lines, &Watched { roster, at });
        }
        match self.cut {
            Some(certificate) => explain(
                f,
                lines,
                &Covered {
                    roster,
                    certificate,
                },
            ),
            None => explain(f, lines, &Beyond::new(roster, at)),
        }
    }
}
