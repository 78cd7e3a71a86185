// Sets of lines whose figures are known, worked out by hand.
use crate::taken::taken;
use lines::{Line, Row};
use trial_tools::{Tally, Watched, row, rows};

// A set of lines and its figures.
struct Case {
    lines: &'static [Row],
    hyperperiod: u16,
    rest: u16,
    watched: Watched,
}

static CASES: [Case; 7] = [
    Case {
        lines: rows![],
        hyperperiod: 1,
        rest: 1,
        watched: Watched::These(&[]),
    },
    Case {
        lines: rows![(8, 5, 1), (15, 9, 1)],
        hyperperiod: 120,
        rest: 13,
        watched: Watched::These(&[5, 9, 13]),
    },
    Case {
        lines: rows![(9, 7, 1), (15, 12, 1)],
        hyperperiod: 45,
        rest: 27,
        watched: Watched::These(&[7, 12, 16, 25, 27]),
    },
    Case {
        lines: rows![(8, 6, 1), (13, 12, 1)],
        hyperperiod: 104,
        rest: 38,
        watched: Watched::These(&[6, 12, 14, 22, 25, 30, 38]),
    },
    Case {
        lines: rows![(7, 5, 1), (11, 7, 1), (13, 10, 1)],
        hyperperiod: 1001,
        rest: 62,
        watched: Watched::These(&[
            5, 7, 10, 12, 18, 19, 23, 26, 29, 33, 36, 40, 47, 49, 51, 54, 61, 62,
        ]),
    },
    Case {
        lines: rows![(128, 128, 1), (129, 129, 1)],
        hyperperiod: 16512,
        rest: 16512,
        watched: Watched::Many(256),
    },
    Case {
        lines: rows![(625, 1, 1), (48, 1, 1)],
        hyperperiod: 30000,
        rest: 1,
        watched: Watched::These(&[1]),
    },
];

// A line, and its count at an instant.
struct Counted {
    row: Row,
    count: u16,
}

const COUNTED_AT: u16 = 40;

static COUNTED: [Counted; 3] = [
    Counted {
        row: row!(7, 5, 1),
        count: 6,
    },
    Counted {
        row: row!(11, 7, 1),
        count: 4,
    },
    Counted {
        row: row!(13, 10, 1),
        count: 3,
    },
];

// The groups of figures of sets.
#[derive(Drop)]
struct Known {
    hyperperiods: Tally,
    rests: Tally,
    lists: Tally,
}

impl Known {
    // The figures of one set. Where it is refused, that is a difference.
    fn compare(&mut self, case: &Case) {
        let Some((lines, list)) = taken(case.lines) else {
            self.rests.note(false);
            return;
        };
        self.hyperperiods
            .note(lines.hyperperiod() == case.hyperperiod);
        self.rests.note(lines.first_rest() == case.rest);
        self.lists.note(case.watched.are(&list));
        self.lists.note(case.watched.are(&lines.full_list()));
    }
}

// Compares known counts. Where a line is refused, that is a difference.
fn counts() -> Tally {
    let mut tally = Tally::of("known counts");
    for counted in &COUNTED {
        match Line::new(counted.row) {
            Ok(line) => tally.note(line.count(COUNTED_AT) == counted.count),
            Err(_) => tally.note(false),
        }
    }
    tally
}

// Compares every known figure.
pub(crate) fn compared() -> [Tally; 4] {
    let mut known = Known {
        hyperperiods: Tally::of("known hyperperiods"),
        rests: Tally::of("known rest points"),
        lists: Tally::of("known watch lists"),
    };
    for case in &CASES {
        known.compare(case);
    }
    [known.hyperperiods, known.rests, known.lists, counts()]
}
