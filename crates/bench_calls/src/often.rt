// A call made a number of times on one roster, so that what it takes to make the roster weighs little in the time.
ghost use Rattle.bench_calls.specs.Promises.{Judged, Ran, Watches};

use crate::figures::{Figures, enrolments};
use roster::{JudgedRoster, after, judged};
use run::{Job, Outcome};
use std::hint::black_box;
use supply::{Supply, Whole};

// The verdict on lines over a supply, which is asked for `times` times and at least once.
pub(crate) fn judge<S: Supply + Drop>(
    supply: S,
    lines: &[Figures],
    times: u32,
) -> Option<Option<u16>>
    ensures { Judged (Unit {0}) (S.meaning supply) lines.now result }
{
    let calls = enrolments(lines.try_into().ok()?);
    let JudgedRoster { roster, verdict } = judged(supply, &calls);
    for _ in 1..times {
        let _ = black_box(roster.verdict());
    }
    Some(verdict)
}

// Runs a list of jobs on the whole processor, `times` times and at least once. Where a check fails, each run leaves the slots.
pub(crate) fn run(lines: &[Figures], jobs: &[Job], slots: &mut [u16], times: u32) -> Option<Outcome>
    ensures { Ran lines.now jobs.now slots.old slots.new result }
{
    let calls = enrolments(lines.try_into().ok()?);
    let JudgedRoster { roster, .. } = judged(Whole, &calls);
    for _ in 1..times {
        let _ = roster.run(0, jobs, slots);
    }
    roster.run(0, jobs, slots).ok()
}

// The number of deadlines that are watched once lines are enrolled.
pub(crate) fn enrol(lines: &[Figures]) -> Option<usize>
    ensures { Watches lines.now result }
{
    let calls = enrolments(lines.try_into().ok()?);
    let roster = after(Whole, &calls);
    Some(roster.watched().as_slice().len())
}
