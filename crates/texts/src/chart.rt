// The slots of a run, and a chart of them: a row for each line of the roster, and a sign for each slot.
mod marks;
mod row;
mod ruler;

use crate::chart::row::Row;
use crate::chart::ruler::ruler;
use crate::run_text::RunText;
use run::NOT_GIVEN;
use std::fmt;
use std::ops::Range;

// The most slots beside each other: a longer run goes on below.
const WIDTH: usize = 60;

// The run that is drawn.
#[derive(Drop)]
pub(crate) struct Chart<'a> {
    pub(crate) run: &'a RunText<'a>,
    // The slot list up to the end of the run.
    pub(crate) entries: &'a [u16],
}

impl<'a> Chart<'a> {
    // The entries: 0 for an idle slot, 1 + the place of the job that runs, and a hyphen where no slot is given.
    fn slots<W: fmt::Write>(&self, f: &mut fmt::Formatter<W>) -> fmt::Result {
        f.write_str("slots")?;
        for entry in self.entries {
            match *entry {
                NOT_GIVEN => f.write_str(" -")?,
                _ => write!(f, " {entry}")?,
            }
        }
        f.write_str("\n")
    }

    // The columns from an instant on: a full width, or what is left up to the end of the run and that instant itself.
    fn columns(&self, from: usize) -> Range<usize> {
        let end = self.entries.len();
        let next = from.saturating_add(WIDTH);
        if next < end {
            from..next
        } else {
            from..end.saturating_add(1)
        }
    }

    // The part between some columns: the ruler, and the row of each line.
    fn part<W: fmt::Write>(
        &self,
        f: &mut fmt::Formatter<W>,
        columns: &Range<usize>,
    ) -> fmt::Result {
        ruler(f, columns)?;
        for line in 0..self.run.lines.len() {
            // Both are lent again, for the one lifetime of the row.
            let row = Row {
                chart: &*self,
                line,
                columns: &*columns,
            };
            row.show(f)?;
        }
        Ok(())
    }

    // The slots in one line of text, and the chart below it.
    pub(crate) fn show<W: fmt::Write>(&self, f: &mut fmt::Formatter<W>) -> fmt::Result {
        self.slots(f)?;
        for from in (0..self.entries.len().max(1)).step_by(WIDTH) {
            self.part(f, &self.columns(from))?;
        }
        Ok(())
    }
}
