use crate::due::due;
use lines::Lines;
use run::Job;
use std::fmt;

// The jobs of a list, one to a line of text.
#[derive(Drop)]
pub struct Jobs<'a> {
    pub lines: &'a Lines,
    pub jobs: &'a [Job],
}

impl<'a> fmt::Display for Jobs<'a> {
    fn fmt<W: fmt::Write>(&self, f: &mut fmt::Formatter<W>) -> fmt::Result {
        for (place, job) in self.jobs.iter().enumerate() {
            let Job {
                line,
                release,
                cost,
            } = *job;
            let deadline = due(self.lines, *job);
            write!(
                f,
                "job {place} line {line} release {release} cost {cost} deadline {deadline}\n"
            )?;
        }
        Ok(())
    }
}
