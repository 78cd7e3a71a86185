// Lines that can't be taken, and how each is refused.
use crate::taken::taken;
use lines::{Line, Lines, Row};
use refusal::Refusal;
use trial_tools::{Tally, Untaken, refused, row, rows};

// Figures that no line has.
struct Unlawful {
    row: Row,
    refused: Option<Refusal>,
}

static UNLAWFUL: [Unlawful; 11] = [
    Unlawful {
        row: row!(0, 1, 1),
        refused: refused!(PeriodOutOfRange),
    },
    Unlawful {
        row: row!(1001, 1, 1),
        refused: refused!(PeriodOutOfRange),
    },
    Unlawful {
        row: row!(65535, 1, 1),
        refused: refused!(PeriodOutOfRange),
    },
    Unlawful {
        row: row!(10, 0, 1),
        refused: refused!(DeadlineOutOfRange),
    },
    Unlawful {
        row: row!(10, 11, 1),
        refused: refused!(DeadlineOutOfRange),
    },
    Unlawful {
        row: row!(1000, 65535, 1),
        refused: refused!(DeadlineOutOfRange),
    },
    Unlawful {
        row: row!(10, 5, 0),
        refused: refused!(CostOutOfRange),
    },
    Unlawful {
        row: row!(10, 5, 1001),
        refused: refused!(CostOutOfRange),
    },
    Unlawful {
        row: row!(10, 5, 65535),
        refused: refused!(CostOutOfRange),
    },
    Unlawful {
        row: row!(0, 0, 0),
        refused: refused!(PeriodOutOfRange),
    },
    Unlawful {
        row: row!(10, 11, 0),
        refused: refused!(DeadlineOutOfRange),
    },
];

// As many lines as there may be.
const EIGHT: [Row; 8] = [row!(1, 1, 1); 8];

// Lines beside others.
static UNTAKEN: [Untaken; 7] = [
    Untaken {
        before: &EIGHT,
        row: row!(1, 1, 1),
        refused: refused!(LinesFull),
    },
    Untaken {
        before: &EIGHT,
        row: row!(0, 0, 0),
        refused: refused!(LinesFull),
    },
    Untaken {
        before: rows![(200, 200, 1)],
        row: row!(199, 199, 1),
        refused: refused!(HyperperiodTooLong),
    },
    Untaken {
        before: rows![(625, 1, 1)],
        row: row!(49, 1, 1),
        refused: refused!(HyperperiodTooLong),
    },
    Untaken {
        before: rows![(129, 129, 1)],
        row: row!(130, 130, 1),
        refused: refused!(WatchListTooLong),
    },
    Untaken {
        before: rows![(200, 200, 1)],
        row: row!(199, 200, 1),
        refused: refused!(DeadlineOutOfRange),
    },
    Untaken {
        before: rows![(8, 5, 1), (15, 9, 1)],
        row: row!(1000, 1000, 1001),
        refused: refused!(CostOutOfRange),
    },
];

// Compares how the unlawful figures are refused, on their own and as a first line, and how lines are refused beside others.
pub(crate) fn compared() -> Tally {
    let mut tally = Tally::of("known refusals");
    for case in &UNLAWFUL {
        tally.note(Line::new(case.row).err() == case.refused);
        tally.note(Lines::none().add(case.row).err() == case.refused);
    }
    for case in &UNTAKEN {
        match taken(case.before) {
            Some((lines, _)) => tally.note(lines.add(case.row).err() == case.refused),
            None => tally.note(false),
        }
    }
    tally
}
