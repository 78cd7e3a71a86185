// Witnesses of overloaded rosters, and how they are refused.
use crate::calls::enrolled;
use lines::Row;
use refusal::Refusal;
use roster::{Roster, Witness};
use run::{Job, Outcome};
use supply::{Named, Whole};
use trial_tools::{Plan, Tally, holds, job, refused, rows};

// An overloaded roster: its supply and lines, its witness and the jobs of it, how a list is refused that is too short for them,
// and the job that their run misses, and when.
struct Case {
    plan: Plan,
    lines: &'static [Row],
    witness: Witness,
    jobs: &'static [Job],
    short: Option<Refusal>,
    missed: Outcome,
}

static CASES: [Case; 2] = [
    Case {
        plan: Plan::WHOLE,
        lines: rows![(7, 5, 3), (11, 7, 3), (13, 10, 4)],
        witness: Witness { phase: 0, jobs: 4 },
        jobs: &[job!(0, 0, 3), job!(1, 0, 3), job!(2, 0, 4), job!(0, 7, 3)],
        short: refused!(ListTooShort, 4),
        missed: Outcome::Missed { job: 3, at: 12 },
    },
    Case {
        plan: Plan::TWO_THIRDS,
        lines: rows![(8, 5, 2), (15, 9, 5)],
        witness: Witness { phase: 2, jobs: 2 },
        jobs: &[job!(0, 0, 2), job!(1, 0, 5)],
        short: refused!(ListTooShort, 2),
        missed: Outcome::Missed { job: 1, at: 9 },
    },
];

// What every place of a list holds before.
const BEFORE: Job = job!(77, 777, 7);

// Whether the witness is written into a list that is long enough; one that is too short is refused and stays as it was.
fn is_written(roster: &Roster<Named>, case: &Case, list: &mut [Job]) -> bool {
    let answer = roster.witness(list);
    if list.len() < case.jobs.len() {
        return answer.err() == case.short && holds(list, &[], BEFORE);
    }
    answer == Ok(case.witness) && holds(list, case.jobs, BEFORE)
}

// Whether the run of the witness misses the job.
fn is_missed(roster: &Roster<Named>, case: &Case) -> bool {
    let mut slots = [0; 12];
    roster.run(case.witness.phase, case.jobs, &mut slots) == Ok(case.missed)
}

// Lists of every length up to 6, and the run of the jobs.
fn compare_case(tally: &mut Tally, case: &Case) {
    let Some(supply) = case.plan.named() else {
        tally.note(false);
        return;
    };
    let roster = enrolled(supply, case.lines);
    for many in 0..7 {
        tally.note(is_written(&roster, case, &mut [BEFORE; 6][..many]));
    }
    tally.note(is_missed(&roster, case));
}

// Whether some lines fit, and have no witness.
fn fit(lines: &[Row]) -> bool {
    let mut list = [BEFORE; 6];
    let answer = enrolled(Whole, lines).witness(&mut list);
    answer.err() == refused!(NothingOverloaded) && holds(&list, &[], BEFORE)
}

// Compares the witnesses.
pub(crate) fn compared() -> Tally {
    let mut tally = Tally::of("known witnesses, in lists of 0 to 6 jobs");
    for case in &CASES {
        compare_case(&mut tally, case);
    }
    tally.note(fit(&[]));
    tally.note(fit(rows![(8, 5, 2), (15, 9, 5)]));
    tally
}
