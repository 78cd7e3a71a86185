use crate::chart::Chart;
use crate::due::due;
use lines::Lines;
use run::{Job, Outcome};
use std::fmt;

// A run that was made: how it ended, the slots up to its end, and a chart of them.
#[derive(Drop)]
pub struct RunText<'a> {
    pub lines: &'a Lines,
    pub jobs: &'a [Job],
    // The slot list that the run filled.
    pub slots: &'a [u16],
    pub outcome: Outcome,
}

impl<'a> RunText<'a> {
    // Where the run ended: at its first miss, or at the largest deadline.
    fn end(&self) -> usize {
        if let Outcome::Missed { at, .. } = self.outcome {
            return usize::from(at);
        }
        let mut end = 0;
        for job in self.jobs {
            end = due(self.lines, *job).max(end);
        }
        usize::from(end)
    }

    // The entries up to the end of the run.
    fn entries(&self) -> &'a [u16] {
        let end = self.end().min(self.slots.len());
        &self.slots[0..end]
    }
}

impl<'a> fmt::Display for RunText<'a> {
    fn fmt<W: fmt::Write>(&self, f: &mut fmt::Formatter<W>) -> fmt::Result {
        match self.outcome {
            Outcome::Met => f.write_str("all met\n")?,
            Outcome::Missed { job, at } => write!(f, "missed job {job} at {at}\n")?,
        }
        let chart = Chart {
            run: &*self,
            entries: self.entries(),
        };
        chart.show(f)
    }
}
