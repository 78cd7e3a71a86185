// Runs with known answers, and the edges of the checks.
use crate::trial::{Case, Trial};
use lines::Row;
use run::Job;
use std::alloc::{AllocError, Global};
use supply::{Supply, Timetable, Whole};
use trial_tools::{job, rows};

// A case with its name.
struct Known {
    name: &'static str,
    case: Case<'static>,
}

// The case of a name, a phase, so many slots, and jobs of three lines: of each job its line, its release and its cost.
macro_rules! case {
    ($name:expr, $phase:expr, $slots:expr, [$(($line:expr, $release:expr, $cost:expr)),*]) => {
        Known {
            name: $name,
            case: Case {
                rows: rows![(7, 5, 3), (11, 7, 3), (13, 10, 4)],
                jobs: &[$(job!($line, $release, $cost)),*],
                phase: $phase,
                slots: $slots,
            },
        }
    };
}

// On the whole processor: the jobs from 0 on with deadlines up to 12, and other lists that are taken.
static ON_WHOLE: [Known; 3] = [
    case!(
        "overload",
        0,
        14,
        [(0, 0, 3), (1, 0, 3), (2, 0, 4), (0, 7, 3)]
    ),
    case!(
        "one slot less",
        0,
        14,
        [(0, 0, 3), (1, 0, 3), (2, 0, 3), (0, 7, 3)]
    ),
    case!("one deadline, two places", 0, 11, [(1, 3, 3), (0, 5, 2)]),
];

// On every second slot, those of odd number in phase 0 and of even number in phase 1.
static ON_HALF: [Known; 2] = [
    case!("every second slot", 0, 13, [(0, 1, 2), (2, 1, 2)]),
    case!("a phase far above 2", u32::MAX, 13, [(0, 1, 2), (2, 1, 2)]),
];

// On the whole processor: empty lists, and lists that are refused for one of their jobs, or for want of slots.
static EDGES: [Known; 10] = [
    case!("no jobs, no slots", u32::MAX, 0, []),
    case!("no jobs, 3 slots", 0, 3, []),
    case!("line 8", 0, 2, [(8, 0, 1)]),
    case!("line 255", 0, 2, [(0, 0, 1), (255, 0, 1)]),
    case!("cost 0", 0, 2, [(0, 0, 0)]),
    case!("cost over the line's", 0, 2, [(0, 0, 4)]),
    case!("out of order", 0, 2, [(0, 3, 1), (1, 2, 1)]),
    case!(
        "nearer than a period",
        0,
        2,
        [(0, 0, 1), (1, 0, 1), (0, 6, 1)]
    ),
    case!("too short by one", 0, 9, [(2, 0, 1), (0, 1, 1)]),
    case!("just long enough", 0, 10, [(2, 0, 1), (0, 1, 1)]),
];

static SHORT: &[Row; 1] = rows![(15, 15, 1)];

static LONG: &[Row; 1] = rows![(1_000, 1_000, 1)];

// A list of jobs of line 0 with a cost of 1, 15 slots apart.
fn regular(heap: Global, many: u16) -> Result<Vec<Job>, AllocError> {
    let mut jobs = Vec::new(heap);
    for k in 0..many {
        jobs.push(job!(0, k.wrapping_mul(15), 1))?;
    }
    Ok(jobs)
}

// Tells how the run of a case ends.
fn told<S: Supply>(rt: &HostRuntime, name: &str, case: Case, supply: &S) -> anyhow::Result<Trial> {
    let trial = case.tried(rt.alloc(), supply)?;
    println!(rt; "{name}: {trial}")?;
    Ok(trial)
}

// Tells how the runs of some cases end, and what the slots then hold.
fn shown<S: Supply>(rt: &HostRuntime, cases: &[Known], supply: &S) -> anyhow::Result<()> {
    for known in cases {
        let slots = told(rt, known.name, known.case, supply)?.slots;
        println!(rt; "  {slots:?}")?;
    }
    Ok(())
}

// Tells how a run of one line's jobs on the whole processor ends.
fn one_line(
    rt: &HostRuntime,
    name: &str,
    rows: &[Row],
    jobs: &[Job],
    slots: usize,
) -> anyhow::Result<()> {
    let case = Case {
        rows,
        jobs,
        phase: 0,
        slots,
    };
    let _ = told(rt, name, case, &Whole)?;
    Ok(())
}

// The most jobs, the last deadline, and one more of each.
fn largest(rt: &HostRuntime) -> anyhow::Result<()> {
    for (name, many) in [("2048 jobs", 2_048), ("2049 jobs", 2_049)] {
        let jobs = regular(rt.alloc(), many)?;
        one_line(rt, name, SHORT, jobs.as_slice(), 32_000)?;
    }
    for (name, release, slots) in [
        ("due at 32000", 31_000, 32_000),
        ("due at 32001", 31_001, 32_001),
        ("released at 65535", 65_535, 32_001),
    ] {
        one_line(rt, name, LONG, &[job!(0, release, 1)], slots)?;
    }
    Ok(())
}

pub(crate) fn show(rt: &HostRuntime, half: &Timetable) -> anyhow::Result<()> {
    shown(rt, &ON_WHOLE, &Whole)?;
    shown(rt, &ON_HALF, half)?;
    shown(rt, &EDGES, &Whole)?;
    largest(rt)
}
