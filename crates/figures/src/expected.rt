// What the definitions say of lawful lines, found job by job and by trying instants one by one: of each line a job comes at 0 and
// then one in each period, and each is due a deadline later.
use lines::Row;
use refusal::Reason;
use std::alloc::{AllocError, Global};

// The longest hyperperiod that is taken.
const LONGEST: u16 = 30_000;

// The most deadlines that are watched.
const MOST: usize = 256;

// What an instant is to the jobs of a line.
#[derive(Clone, Copy)]
pub(crate) struct Instant {
    // Whether it lies inside a job, after its release and before its deadline.
    inside: bool,
    // Whether it is a deadline.
    due: bool,
    // How many jobs are due by it, and their cost.
    pub(crate) count: u16,
    pub(crate) work: u32,
}

impl Instant {
    // An instant, beside each job that comes by it.
    pub(crate) fn of(row: &Row, t: u16) -> Instant {
        let mut instant = Instant {
            inside: false,
            due: false,
            count: 0,
            work: 0,
        };
        for release in (0..=t).step_by(usize::from(row.period.max(1))) {
            let due = u32::from(release) + u32::from(row.deadline);
            if due > u32::from(t) {
                instant.inside |= release < t;
            } else {
                instant.due |= due == u32::from(t);
                instant.count = instant.count.saturating_add(1);
                instant.work = instant.work.saturating_add(u32::from(row.cost));
            }
        }
        instant
    }
}

// What is asked of a set that is taken.
#[derive(Drop)]
pub(crate) struct Answers {
    pub(crate) hyperperiod: u16,
    pub(crate) rest: u16,
    pub(crate) watched: Vec<u16>,
}

// What is asked of a set that can be taken, or why it can't.
pub(crate) type Expected = Result<Answers, Reason>;

// The first instant from 1 on that every period divides, found by trying each.
fn hyperperiod(rows: &[Row]) -> Option<u16> {
    'instants: for t in 1..=LONGEST {
        for row in rows {
            if t % row.period.max(1) > 0 {
                continue 'instants;
            }
        }
        return Some(t);
    }
    None
}

// What is expected of a set, by the definitions.
pub(crate) fn expected(heap: Global, rows: &[Row]) -> Result<Expected, AllocError> {
    let Some(hyperperiod) = hyperperiod(rows) else {
        return Ok(Err(Reason::HyperperiodTooLong));
    };
    let mut watched = Vec::new(heap);
    // The hyperperiod lies inside no job, so a rest point is found; without one, 0 would differ from every rest point.
    let mut rest = 0;
    for t in 1..=hyperperiod {
        let mut inside = false;
        let mut due = false;
        for row in rows {
            let instant = Instant::of(row, t);
            inside |= instant.inside;
            due |= instant.due;
        }
        if due {
            watched.push(t)?;
        }
        if watched.len() > MOST {
            return Ok(Err(Reason::WatchListTooLong));
        }
        if !inside {
            rest = t;
            break;
        }
    }
    Ok(Ok(Answers {
        hyperperiod,
        rest,
        watched,
    }))
}
