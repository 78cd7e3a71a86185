// The row of a line between some columns: what it does in each slot.
use crate::chart::Chart;
use crate::due::due;
use run::{Job, NOT_GIVEN, Outcome};
use std::fmt;
use std::ops::Range;

// A slot that is not given.
const CLOSED: char = '-';

// A given slot at which no job of the line wants to run.
const QUIET: char = '.';

// A given slot that goes to another line while a job of this one waits.
const WAITING: char = '_';

// The end of the row where the run ended at a deadline that a job of the line missed.
const MISSED: &str = "!\n";

// The entry of the slots that run the job at a place.
fn entry_of(place: usize) -> usize {
    place.saturating_add(1)
}

// The last digit of a job's place.
fn digit(place: usize) -> char {
    char::from(b'0' + (place % 10) as u8)
}

// The sign of a slot, where the job at a place wants to run, or none of the line.
fn sign(entry: u16, wanting: Option<usize>) -> char {
    match wanting {
        _ if entry == NOT_GIVEN => CLOSED,
        None => QUIET,
        Some(place) if usize::from(entry) == entry_of(place) => digit(place),
        Some(_) => WAITING,
    }
}

// A line of the chart, and the columns that are shown of it.
#[derive(Drop)]
pub(crate) struct Row<'a> {
    pub(crate) chart: &'a Chart<'a>,
    pub(crate) line: usize,
    pub(crate) columns: &'a Range<usize>,
}

impl<'a> Row<'a> {
    // Whether a job is one of the line.
    pub(crate) fn owns(&self, job: Job) -> bool {
        usize::from(job.line) == self.line
    }

    // The instant from which a job wants no more slots: it has had its cost, or its deadline or the end of the run has come.
    fn settled(&self, place: usize, job: Job) -> usize {
        let entries = self.chart.entries;
        let last = usize::from(due(self.chart.run.lines, job)).min(entries.len());
        let mut left = job.cost;
        for (s, entry) in entries
            .iter()
            .enumerate()
            .take(last)
            .skip(usize::from(job.release))
        {
            if usize::from(*entry) == entry_of(place) {
                left = left.saturating_sub(1);
            }
            if left == 0 {
                return s.saturating_add(1);
            }
        }
        last
    }

    // The signs of the slots from one instant to another, where the job at a place wants to run, or none of the line.
    fn signs<W: fmt::Write>(
        &self,
        f: &mut fmt::Formatter<W>,
        from: usize,
        to: usize,
        wanting: Option<usize>,
    ) -> fmt::Result {
        for entry in self.chart.entries.iter().take(to).skip(from) {
            f.write_char(sign(*entry, wanting))?;
        }
        Ok(())
    }

    // Whether a job of the line may want a slot of the columns: it comes before their end, and is due behind their beginning.
    fn reaches(&self, job: Job) -> bool {
        self.owns(job)
            && usize::from(job.release) < self.columns.end
            && usize::from(due(self.chart.run.lines, job)) > self.columns.start
    }

    // The slots of the line: those before each of its jobs, those of the job, and those behind the last.
    fn slots<W: fmt::Write>(&self, f: &mut fmt::Formatter<W>) -> fmt::Result {
        let to = self.columns.end;
        let mut at = self.columns.start;
        for (place, job) in self.chart.run.jobs.iter().enumerate() {
            if self.reaches(*job) {
                let release = usize::from(job.release).max(at);
                self.signs(f, at, release, None)?;
                at = self.settled(place, *job).min(to).max(release);
                self.signs(f, release, at, Some(place))?;
            }
        }
        self.signs(f, at, to, None)
    }

    // Whether a job of the line missed its deadline.
    fn missed(&self) -> bool {
        let Outcome::Missed { job, .. } = self.chart.run.outcome else {
            return false;
        };
        match self.chart.run.jobs.get(usize::from(job)) {
            Some(job) => self.owns(*job),
            None => false,
        }
    }

    // The row, and below it the marks.
    pub(crate) fn show<W: fmt::Write>(&self, f: &mut fmt::Formatter<W>) -> fmt::Result {
        let entries = self.chart.entries;
        let line = self.line;
        let gap = if entries.is_empty() { "" } else { "  " };
        write!(f, "line {line}{gap}")?;
        self.slots(f)?;
        let is_missed = self.columns.end > entries.len() && self.missed();
        f.write_str(if is_missed { MISSED } else { "\n" })?;
        self.marks(f)
    }
}
