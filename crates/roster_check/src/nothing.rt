ghost use Rattle.roster_check.specs.Nothing.{nothing};
ghost use Rattle.std.proofs.Common.{rules};

use crate::calls::{Called, compare_calls, enrolled};
use roster::{Call, Roster};
use run::{Job, Outcome};
use supply::Supply;
use trial_tools::{Tally, refused, rows};

// A supply that gives no slot at all. (Written as the whole processor is, since each supply answers its questions itself.)
#[derive(Clone, Copy)]
pub(crate) struct Nothing;

impl Supply for Nothing {
    ghost meaning = { λ _. nothing };

    ghost counts = { Prim.search rules };

    ghost windows = { Prim.search rules };

    ghost attained = { Prim.search rules };

    fn phases(&self) -> u32 {
        1
    }

    fn count(&self, _phase: u32, _n: u16) -> u16 {
        0
    }

    fn least(&self, _n: u16) -> (u16, u32) {
        (0, 0)
    }
}

// The cites ask for nothing, so only counts have to be covered; but 14 may not lean on 30, which leans on it.
static CUTS: [Called; 3] = [
    Called {
        call: Call::Cut {
            deadline: 25,
            divisor: 1,
            cites: &[0, 12, 0, 1, 0, 14, 0, 1],
        },
        refused: None,
    },
    Called {
        call: Call::Cut {
            deadline: 30,
            divisor: 1,
            cites: &[0, 14, 0, 2],
        },
        refused: None,
    },
    Called {
        call: Call::Cut {
            deadline: 14,
            divisor: 2,
            cites: &[0, 30, 0, 1],
        },
        refused: refused!(NotWatched, 1),
    },
];

// A job that is due by 12, and one that is due by 6.
static JOBS: [Job; 2] = [
    Job {
        line: 1,
        release: 0,
        cost: 1,
    },
    Job {
        line: 0,
        release: 0,
        cost: 1,
    },
];

// A run of a job misses it in slots that are not given.
fn compare_run(tally: &mut Tally, roster: &Roster<Nothing>) {
    let mut slots = [0; 12];
    let answer = roster.run(7, &JOBS, &mut slots);
    tally.note(answer == Ok(Outcome::Missed { job: 1, at: 6 }));
    tally.note(slots == [65_535; 12]);
}

// With lines the roster is overloaded at their first deadline, whatever is cut.
fn compare_cuts(tally: &mut Tally, roster: &mut Roster<Nothing>) {
    compare_calls(tally, roster, &CUTS);
    tally.note(roster.watched().as_slice() == [6, 12, 14, 22, 38].as_slice());
    tally.note(roster.verdict() == Some(6));
}

// Compares a roster on this supply: without lines it fits.
pub(crate) fn compared() -> Tally {
    let mut tally = Tally::of("a supply that gives nothing");
    tally.note(enrolled(Nothing, &[]).verdict().is_none());
    let mut roster = enrolled(Nothing, rows![(8, 6, 2), (13, 12, 10)]);
    compare_cuts(&mut tally, &mut roster);
    compare_run(&mut tally, &roster);
    tally
}
