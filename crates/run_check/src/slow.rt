// What a run should do, by looking at every job in every slot. It shares no code with the run.
use crate::trial::{BEFORE, Case, Trial};
use refusal::{Layer, Reason, Refusal};
use run::{Job, Outcome};
use std::alloc::{AllocError, Global};

// What a slot holds that is not given, or that the run does not come to.
const NOT_GIVEN: u16 = 65_535;

// A job with its deadline and what is left of its cost.
#[derive(Clone, Copy)]
struct Task {
    release: usize,
    deadline: usize,
    left: u16,
}

// The lowest place that is due at an instant with work left.
fn missed(tasks: &[Task], at: usize) -> Option<usize> {
    for (place, task) in tasks.iter().enumerate() {
        if task.left > 0 && task.deadline <= at {
            return Some(place);
        }
    }
    None
}

// Takes one slot off what is left of the released job that is due first, the lowest of several, and tells the entry: its place
// from 1, or 0 where no work is left.
fn serve(tasks: &mut [Task], at: usize) -> u16 {
    let mut earliest = usize::MAX;
    let mut chosen = None;
    for (place, task) in tasks.iter().enumerate() {
        if task.left > 0 && task.release <= at && task.deadline < earliest {
            earliest = task.deadline;
            chosen = Some(place);
        }
    }
    let Some(place) = chosen else {
        return 0;
    };
    if let Some(task) = tasks.get_mut(place) {
        task.left = task.left.saturating_sub(1);
    }
    small(place).saturating_add(1)
}

// Whether slot s is given, where a pattern says it of the first slots and then over and over.
fn given(pattern: &[bool], s: usize) -> bool {
    pattern.get(s % pattern.len().max(1)) == Some(&true)
}

// A number as 16 bits, or the largest of them.
fn small(n: usize) -> u16 {
    u16::try_from(n).unwrap_or(u16::MAX)
}

// The refusal of the run for a reason, at a place.
fn refused(reason: Reason, place: usize) -> Refusal {
    Refusal::by(Layer::Run, reason).at(u32::from(small(place)))
}

impl Case<'_> {
    // The deadline of a job; its release, where its line isn't there.
    fn deadline(self, job: Job) -> usize {
        let release = usize::from(job.release);
        match self.rows.get(usize::from(job.line)) {
            Some(row) => release.saturating_add(usize::from(row.deadline)),
            None => release,
        }
    }

    // Whether a job may stand at a place, by comparing it with each of those before.
    fn may_follow(self, place: usize, job: Job) -> Result<(), Reason> {
        let Some(row) = self.rows.get(usize::from(job.line)) else {
            return Err(Reason::JobOutOfRange);
        };
        if job.cost == 0 || job.cost > row.cost {
            return Err(Reason::JobOutOfRange);
        }
        for other in self.jobs.iter().take(place) {
            let again = u32::from(other.release).saturating_add(u32::from(row.period));
            if other.release > job.release
                || other.line == job.line && u32::from(job.release) < again
            {
                return Err(Reason::JobTooSoon);
            }
        }
        if self.deadline(job) > 32_000 {
            return Err(Reason::TooLarge);
        }
        Ok(())
    }

    // How many slots it needs, if it may be run with its own, and else the refusal that it should get.
    fn needed(self) -> Result<usize, Refusal> {
        if self.jobs.len() > 2_048 {
            return Err(refused(Reason::TooLarge, 0));
        }
        let mut needed = 0;
        for (place, job) in self.jobs.iter().enumerate() {
            if let Err(reason) = self.may_follow(place, *job) {
                return Err(refused(reason, place));
            }
            needed = self.deadline(*job).max(needed);
        }
        if self.slots < needed {
            return Err(refused(Reason::ListTooShort, needed));
        }
        Ok(needed)
    }

    // Its jobs with all their work to go.
    fn tasks(self, heap: Global) -> Result<Vec<Task>, AllocError> {
        let mut tasks = Vec::new(heap);
        for job in self.jobs {
            tasks.push(Task {
                release: usize::from(job.release),
                deadline: self.deadline(*job),
                left: job.cost,
            })?;
        }
        Ok(tasks)
    }

    // How a run over so many slots ends, and what its slots then hold.
    fn simulated(self, heap: Global, pattern: &[bool], needed: usize) -> Result<Trial, AllocError> {
        let mut tasks = self.tasks(heap)?;
        let mut slots = vec![in heap; NOT_GIVEN; self.slots]?;
        let mut outcome = Outcome::Met;
        for (s, slot) in slots.iter_mut().enumerate().take(needed) {
            if given(pattern, s) {
                *slot = serve(tasks.as_mut_slice(), s);
            }
            let at = s.saturating_add(1);
            if let Some(place) = missed(tasks.as_slice(), at) {
                outcome = Outcome::Missed {
                    job: small(place),
                    at: small(at),
                };
                break;
            }
        }
        Ok(Trial {
            answer: Ok(outcome),
            slots,
        })
    }

    // What the run should be, where a pattern says which slots are given.
    pub(crate) fn expected(self, heap: Global, pattern: &[bool]) -> Result<Trial, AllocError> {
        match self.needed() {
            Ok(needed) => self.simulated(heap, pattern, needed),
            Err(refusal) => Ok(Trial {
                answer: Err(refusal),
                slots: vec![in heap; BEFORE; self.slots]?,
            }),
        }
    }
}
