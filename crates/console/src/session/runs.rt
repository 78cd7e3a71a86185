// Commands that run job lists.
use crate::session::Session;
use commands::{Trouble, Usage, all, number, text};
use run::Job;
use texts::RunText;

// As many slots as a run can fill.
const MOST_SLOTS: usize = 32_000;

// Jobs, and the phase of the supply in which they are run.
#[derive(Drop)]
pub(crate) struct JobList {
    pub(crate) phase: u32,
    pub(crate) jobs: Vec<Job>,
}

impl Session {
    // The job list that the words of a `run` name: the witness, or jobs in a phase.
    fn job_list(&self, words: &[&str]) -> Result<JobList, Trouble> {
        match words {
            ["witness"] => self.witness_list(),
            [phase, jobs @ ..] => Ok(JobList {
                phase: number(phase, Usage::Run)?,
                jobs: all(self.heap, jobs, Usage::Run)?,
            }),
            [] => Err(Trouble::Usage(Usage::Run)),
        }
    }

    // Runs jobs in a phase: how it ends, the slots, and a chart of them.
    pub(crate) fn run(&self, words: &[&str]) -> Result<String, Trouble> {
        let list = self.job_list(words)?;
        let jobs = list.jobs.as_slice();
        let mut slots = vec![in self.heap; 0u16; MOST_SLOTS]?;
        let outcome = self.roster.run(list.phase, jobs, slots.as_mut_slice())?;
        let run = RunText {
            lines: self.roster.lines(),
            jobs,
            slots: slots.as_slice(),
            outcome,
        };
        text(self.heap, &run)
    }
}
