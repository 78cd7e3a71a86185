// The marks below the row of a line: the releases and the deadlines of its jobs.
use crate::chart::row::Row;
use crate::due::due;
use std::fmt;

// The instant at which a job is released.
const RELEASE: char = '^';

// The instant at which a job is due.
const DUE: char = 'v';

// An instant at which one job is due and the next is released.
const BOTH: char = 'x';

impl<'a> Row<'a> {
    // The mark of an instant at which a job of the line is due.
    fn due_mark(&self, at: usize) -> char {
        for job in self.chart.run.jobs {
            if self.owns(*job) && usize::from(job.release) == at {
                return BOTH;
            }
        }
        DUE
    }

    // Puts a mark at an instant of the columns, behind so many characters of the row, and answers how many there are then. A mark
    // that would stand before the end of the row is left out.
    fn put<W: fmt::Write>(
        &self,
        f: &mut fmt::Formatter<W>,
        written: usize,
        at: usize,
        mark: char,
    ) -> Result<usize, fmt::Error> {
        let length = at.saturating_sub(self.columns.start).saturating_add(9);
        if length <= written {
            return Ok(written);
        }
        let width = length - written;
        write!(f, "{mark:>width$}")?;
        Ok(length)
    }

    // The marks of the line. Where there are none, there is no row for them. (Which mark an instant has is asked inside the columns
    // alone, since it takes a walk over the jobs.)
    pub(crate) fn marks<W: fmt::Write>(&self, f: &mut fmt::Formatter<W>) -> fmt::Result {
        let mut written = 0;
        for job in self.chart.run.jobs {
            if self.owns(*job) {
                let release = usize::from(job.release);
                let due = usize::from(due(self.chart.run.lines, *job));
                if self.columns.contains(&release) {
                    written = self.put(f, written, release, RELEASE)?;
                }
                if self.columns.contains(&due) {
                    written = self.put(f, written, due, self.due_mark(due))?;
                }
            }
        }
        if written > 0 {
            f.write_str("\n")?;
        }
        Ok(())
    }
}
