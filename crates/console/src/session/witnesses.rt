// Commands about the witness of an overload.
use crate::session::Session;
use crate::session::runs::JobList;
use commands::Trouble;
use refusal::{Reason, Refusal};
use run::Job;
use texts::Jobs;

impl Session {
    // How many jobs the witness has: a list of none is too short for it, and the refusal names the length.
    fn witness_length(&self) -> Result<usize, Trouble> {
        // A match: one of the refusals is an answer here, and the others are handed on.
        match self.roster.witness(&mut []) {
            Ok(witness) => Ok(witness.jobs),
            Err(
                Refusal {
                    reason: Reason::ListTooShort,
                    place,
                    ..
                },
            ) => Ok(place as usize),
            Err(refusal) => Err(Trouble::Refused(refusal)),
        }
    }

    // The witness, in a list that is long enough: jobs that no schedule meets in their phase.
    pub(crate) fn witness_list(&self) -> Result<JobList, Trouble> {
        let none = Job {
            line: 0,
            release: 0,
            cost: 0,
        };
        let mut jobs = vec![in self.heap; none; self.witness_length()?]?;
        let phase = self.roster.witness(jobs.as_mut_slice())?.phase;
        Ok(JobList { phase, jobs })
    }

    // The phase of the witness, and its jobs, one to a line of text.
    pub(crate) fn witness(&self) -> Result<String, Trouble> {
        let JobList { phase, jobs } = self.witness_list()?;
        let many = jobs.len();
        let jobs = Jobs {
            lines: self.roster.lines(),
            jobs: jobs.as_slice(),
        };
        Ok(format!(in self.heap; "witness phase {phase} jobs {many}\n{jobs}")?)
    }
}
