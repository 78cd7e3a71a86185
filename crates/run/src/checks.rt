// What a list of jobs has to keep before it is run.
ghost use Rattle.std.specs.Prelude.{◌≡◌, ◌+◌, ◌<◌, ◌||◌, max, length, nat_lt, slice_index, slice_set};
ghost use Rattle.lines.specs.Demand.{Lawful};
ghost use Rattle.lines.specs.Of.{rows_of};
ghost use Rattle.refusal.specs.Answers.{Answered};
ghost use Rattle.refusal.specs.declared.layer.Layer.TheVariants.{Run};
ghost use Rattle.run.specs.Checks.{checks_of, list_checks};
ghost use Rattle.run.specs.Timed.{figures, timed};

use crate::checked::Checked;
use crate::job::Job;
use crate::releases::Releases;
use lines::{Lines, Row};
use refusal::{Layer, Reason, Refusal};

// The most jobs that a list may have.
const MOST_JOBS: usize = 2_048;

// The last instant at which a job may be due.
const LAST_DEADLINE: u16 = 32_000;

// A refusal of the run at a place.
pub(crate) fn refused(reason: Reason, place: u32) -> Refusal
    ensures { result ≡ record { reason = reason; layer = Run; place = place } }
{
    Refusal::by(Layer::Run, reason).at(place)
}

impl Releases {
    // The row of the line of a job at a place, if the job may be released behind those before it.
    fn check(&self, lines: &Lines, job: Job, place: u32) -> Result<Row, Refusal>
        ensures { Answered result (checks_of (rows_of lines.now) job place (nat_lt job.release self.now.last || nat_lt job.release (slice_index self.now.free job.line))) (λ row. (row ≡ figures (rows_of lines.now) job.line) × (job.line < 8) × Lawful row) }
    {
        let line = lines
            .get(usize::from(job.line))
            .ok_or(refused(Reason::JobOutOfRange, place))?;
        let row = line.row();
        if !(1..=row.cost).contains(&job.cost) {
            return Err(refused(Reason::JobOutOfRange, place));
        }
        if job.release < self.last || job.release < self.free[usize::from(job.line)] {
            return Err(refused(Reason::JobTooSoon, place));
        }
        if job.release > LAST_DEADLINE - row.deadline {
            return Err(refused(Reason::TooLarge, place));
        }
        Ok(row)
    }

    // Takes in the job at a place, if it passes its checks.
    fn take(&mut self, lines: &Lines, job: Job, place: u32) -> Result<(), Refusal>
        ensures { Answered result (checks_of (rows_of lines.now) job place (nat_lt job.release self.old.last || nat_lt job.release (slice_index self.old.free job.line))) (λ _. (job.line < 8) × Lawful (figures (rows_of lines.now) job.line) × (self.new.last ≡ job.release) × (self.new.free ≡ slice_set self.old.free job.line (job.release + (figures (rows_of lines.now) job.line).period)) × (self.new.largest ≡ max (timed (rows_of lines.now) job).deadline self.old.largest)) }
    {
        let row = self.check(lines, job, place)?;
        self.last = job.release;
        self.free[usize::from(job.line)] = job.release + row.period;
        self.largest = self.largest.max(job.release + row.deadline);
        Ok(())
    }
}

impl<'a> Checked<'a> {
    // A list of jobs of some lines, if it may be run.
    pub(crate) fn new(lines: &'a Lines, jobs: &'a [Job]) -> Result<Checked<'a>, Refusal>
        ensures { Answered result (list_checks (rows_of lines.now) jobs.now) (λ list. (list.lines.now ≡ lines.now) × (list.jobs.now ≡ jobs.now)) }
    {
        if jobs.len() > MOST_JOBS {
            return Err(refused(Reason::TooLarge, 0));
        }
        let mut releases = Releases::none();
        for (place, job) in jobs.iter().enumerate() {
            releases.take(lines, *job, place as u32)?;
        }
        Ok(Checked {
            lines,
            jobs,
            last_deadline: releases.largest,
        })
    }
}
