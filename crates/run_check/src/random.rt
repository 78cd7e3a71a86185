// Random lists of jobs, each run on the whole processor, a timetable and a share, against the slow simulation.
use crate::trial::{Case, lines_of};
use anyhow::anyhow;
use lines::Row;
use run::{Job, Outcome};
use std::alloc::{AllocError, Global};
use supply::{Share, Supply, Timetable, Whole};
use trial_tools::{Generator, Upper, job, may_release};

// Numbers that look random, the same on each run: the upper 31 bits of each state.
type Numbers = Upper<0x2_0000_0000, 0x8000_0000>;

// How many runs ended in which way, and how many were not as they should be.
#[derive(Clone, Copy)]
struct Ends {
    met: u32,
    missed: u32,
    refused: u32,
    wrong: u32,
}

impl Ends {
    // Runs a case on a supply, and adds how it ended.
    fn count<S: Supply>(
        &mut self,
        heap: Global,
        case: Case,
        supply: &S,
        pattern: &[bool],
    ) -> Result<(), AllocError> {
        let trial = case.tried(heap, supply)?;
        match trial.answer {
            Ok(Outcome::Met) => self.met = self.met.saturating_add(1),
            Ok(Outcome::Missed { .. }) => self.missed = self.missed.saturating_add(1),
            Err(_) => self.refused = self.refused.saturating_add(1),
        }
        if trial != case.expected(heap, pattern)? {
            self.wrong = self.wrong.saturating_add(1);
        }
        Ok(())
    }
}

// The supplies beside the whole processor: every second slot, and 2 slots of each 3.
#[derive(Clone, Copy)]
struct Parts {
    half: Timetable,
    share: Share<Whole>,
}

impl Parts {
    // Runs a case on the whole processor, and then the same on each part.
    fn count(&self, heap: Global, ends: &mut Ends, case: Case) -> Result<(), AllocError> {
        let k = case.phase;
        ends.count(heap, case, &Whole, &[true])?;
        let halves = [k % 2 == 1, k % 2 == 0];
        ends.count(heap, case, &self.half, &halves)?;
        let thirds = [k % 3 != 2, k % 3 != 1, k % 3 != 0];
        ends.count(heap, case, &self.share, &thirds)
    }
}

// Up to 4 lines that can be taken together.
fn rows(heap: Global, numbers: &mut Numbers) -> Result<Vec<Row>, AllocError> {
    let mut rows = Vec::new(heap);
    for _ in 0..numbers.up_to(4) {
        let period = numbers.up_to(16);
        rows.push(numbers.row(period, 4))?;
    }
    let many = lines_of(rows.as_slice()).len();
    rows.truncate(many);
    Ok(rows)
}

// Jobs of some lines that pass the checks.
fn jobs(heap: Global, numbers: &mut Numbers, rows: &[Row]) -> Result<Vec<Job>, AllocError> {
    let mut jobs = Vec::new(heap);
    for release in 0..40 {
        for (line, row) in (0..8u8).zip(rows) {
            if numbers.below(5) == 0 && may_release(jobs.as_slice(), line, row.period, release) {
                jobs.push(job!(line, release, numbers.up_to(row.cost)))?;
            }
        }
    }
    Ok(jobs)
}

// Changes one job of a list, often so that it should be refused.
fn spoil(numbers: &mut Numbers, jobs: &mut Vec<Job>) {
    let place = usize::from(numbers.below(64));
    let line = u8::try_from(numbers.below(6)).unwrap_or(0);
    let release = numbers.below(60);
    let cost = numbers.below(8);
    if let Some(job) = jobs.get_mut(place) {
        *job = job!(line, release, cost);
    }
}

// Runs the random lists of a number: in each fourth of them one job is changed.
fn compare_lists(
    heap: Global,
    ends: &mut Ends,
    numbers: &mut Numbers,
    parts: &Parts,
    k: u32,
) -> Result<(), AllocError> {
    let rows = rows(heap, numbers)?;
    let mut jobs = jobs(heap, numbers, rows.as_slice())?;
    if k % 4 == 0 {
        spoil(numbers, &mut jobs);
    }
    let case = Case {
        rows: rows.as_slice(),
        jobs: jobs.as_slice(),
        phase: k,
        slots: usize::from(numbers.below(20)).wrapping_add(48),
    };
    parts.count(heap, ends, case)
}

// Runs random lists and prints how they ended.
pub(crate) fn compare(rt: &HostRuntime, half: &Timetable) -> anyhow::Result<()> {
    let Ok(share) = Share::new(Whole, 2, 3) else {
        return Err(anyhow!("2 in 3 is a share"));
    };
    let parts = Parts { half: *half, share };
    let mut numbers = Numbers::new(2_026);
    let mut ends = Ends {
        met: 0,
        missed: 0,
        refused: 0,
        wrong: 0,
    };
    for k in 0..400u32 {
        compare_lists(rt.alloc(), &mut ends, &mut numbers, &parts, k)?;
    }
    let Ends {
        met,
        missed,
        refused,
        wrong,
    } = ends;
    println!(rt;
        "random lists: {met} met, {missed} missed, {refused} refused, {wrong} not as the slow simulation says"
    )?;
    Ok(())
}
