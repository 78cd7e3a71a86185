// Bad input: how it is refused, and that it changes nothing.
use crate::calls::{Called, compare_calls, enrolled};
use lines::Row;
use refusal::{Layer, Reason, Refusal};
use roster::{Call, Roster};
use run::{Job, Outcome};
use supply::Whole;
use trial_tools::{Tally, holds, refused, row, rows};

// Lines, and calls on a roster that has them.
struct Case {
    lines: &'static [Row],
    calls: &'static [Called],
}

// The lines of which 25 can be cut with divisor 2 by 38 and 12.
static LINES: &[Row; 2] = rows![(8, 6, 2), (13, 12, 10)];

// Certificates for it that are out of range, or just in range; 3, 232 spells 1,000 and 3, 233 spells 1,001.
static CUTS: [Case; 1] = [Case {
    lines: rows![(8, 6, 2), (13, 12, 10)],
    calls: &[
        Called {
            call: Call::Cut {
                deadline: 25,
                divisor: 0,
                cites: &[0, 38, 0, 1, 0, 12, 0, 1],
            },
            refused: refused!(CertificateOutOfRange),
        },
        Called {
            call: Call::Cut {
                deadline: 25,
                divisor: 1000,
                cites: &[0, 38, 0, 1, 0, 12, 0, 1],
            },
            refused: refused!(CountNotCovered),
        },
        Called {
            call: Call::Cut {
                deadline: 25,
                divisor: 1001,
                cites: &[0, 38, 0, 1, 0, 12, 0, 1],
            },
            refused: refused!(CertificateOutOfRange),
        },
        Called {
            call: Call::Cut {
                deadline: 25,
                divisor: 65_535,
                cites: &[0, 38, 0, 1, 0, 12, 0, 1],
            },
            refused: refused!(CertificateOutOfRange),
        },
        Called {
            call: Call::Cut {
                deadline: 25,
                divisor: 2,
                cites: &[0, 38, 0, 0, 0, 12, 0, 1],
            },
            refused: refused!(CertificateOutOfRange, 1),
        },
        Called {
            call: Call::Cut {
                deadline: 25,
                divisor: 2,
                cites: &[0, 38, 0, 1, 0, 12, 0, 0],
            },
            refused: refused!(CertificateOutOfRange, 2),
        },
        Called {
            call: Call::Cut {
                deadline: 25,
                divisor: 2,
                cites: &[0, 38, 3, 233, 0, 12, 0, 0],
            },
            refused: refused!(CertificateOutOfRange, 1),
        },
        Called {
            call: Call::Cut {
                deadline: 25,
                divisor: 2,
                cites: &[0, 38, 0, 1, 0, 12, 255, 255],
            },
            refused: refused!(CertificateOutOfRange, 2),
        },
        Called {
            call: Call::Cut {
                deadline: 25,
                divisor: 2,
                cites: &[0, 38, 3, 232, 0, 12, 3, 232],
            },
            refused: refused!(SupplyNotCovered),
        },
        Called {
            call: Call::Cut {
                deadline: 25,
                divisor: 2,
                cites: &[0, 12, 3, 232],
            },
            refused: refused!(SupplyNotCovered),
        },
        Called {
            call: Call::Cut {
                deadline: 25,
                divisor: 0,
                cites: &[],
            },
            refused: refused!(CertificateOutOfRange),
        },
        Called {
            call: Call::Cut {
                deadline: 0,
                divisor: 2,
                cites: &[0, 38, 0, 1, 0, 12, 0, 0],
            },
            refused: refused!(CertificateOutOfRange, 2),
        },
        Called {
            call: Call::Cut {
                deadline: 0,
                divisor: 2,
                cites: &[0, 38, 0, 1, 0, 12, 0, 1],
            },
            refused: refused!(NotWatched),
        },
        Called {
            call: Call::Cut {
                deadline: 65_535,
                divisor: 2,
                cites: &[0, 38, 0, 1, 0, 12, 0, 1],
            },
            refused: refused!(NotWatched),
        },
        Called {
            call: Call::Cut {
                deadline: 24,
                divisor: 2,
                cites: &[0, 24, 0, 1, 0, 12, 0, 1],
            },
            refused: refused!(NotWatched),
        },
        Called {
            call: Call::Cut {
                deadline: 25,
                divisor: 2,
                cites: &[0, 0, 0, 1, 0, 12, 0, 1],
            },
            refused: refused!(NotWatched, 1),
        },
        Called {
            call: Call::Cut {
                deadline: 25,
                divisor: 2,
                cites: &[0, 38, 0, 1, 255, 255, 0, 1],
            },
            refused: refused!(NotWatched, 2),
        },
        Called {
            call: Call::Cut {
                deadline: 25,
                divisor: 2,
                cites: &[0, 38, 0, 1, 0, 25, 0, 1],
            },
            refused: refused!(NotWatched, 2),
        },
        Called {
            call: Call::Cut {
                deadline: 25,
                divisor: 2,
                cites: &[0, 24, 0, 1, 0, 25, 0, 1],
            },
            refused: refused!(NotWatched, 1),
        },
        Called {
            call: Call::Cut {
                deadline: 25,
                divisor: 2,
                cites: &[0, 30, 0, 1, 0, 14, 0, 1],
            },
            refused: refused!(CountNotCovered, 1),
        },
        Called {
            call: Call::Cut {
                deadline: 25,
                divisor: 2,
                cites: &[0, 12, 0, 1],
            },
            refused: refused!(CountNotCovered),
        },
        Called {
            call: Call::Cut {
                deadline: 25,
                divisor: 1000,
                cites: &[0, 38, 1, 244, 0, 12, 1, 244],
            },
            refused: None,
        },
    ],
}];

// Lines beside others.
static UNTAKEN: [Case; 12] = [
    Case {
        lines: &[row!(1, 1, 1); 8],
        calls: &[Called {
            call: Call::Enrol(row!(0, 0, 0)),
            refused: refused!(LinesFull),
        }],
    },
    Case {
        lines: rows![(8, 6, 2)],
        calls: &[Called {
            call: Call::Enrol(row!(0, 0, 0)),
            refused: refused!(PeriodOutOfRange),
        }],
    },
    Case {
        lines: rows![(8, 6, 2)],
        calls: &[Called {
            call: Call::Enrol(row!(1001, 1, 1)),
            refused: refused!(PeriodOutOfRange),
        }],
    },
    Case {
        lines: rows![(8, 6, 2)],
        calls: &[Called {
            call: Call::Enrol(row!(65_535, 1, 1)),
            refused: refused!(PeriodOutOfRange),
        }],
    },
    Case {
        lines: rows![(8, 6, 2)],
        calls: &[Called {
            call: Call::Enrol(row!(10, 0, 0)),
            refused: refused!(DeadlineOutOfRange),
        }],
    },
    Case {
        lines: rows![(8, 6, 2)],
        calls: &[Called {
            call: Call::Enrol(row!(10, 11, 1)),
            refused: refused!(DeadlineOutOfRange),
        }],
    },
    Case {
        lines: rows![(8, 6, 2)],
        calls: &[Called {
            call: Call::Enrol(row!(10, 5, 0)),
            refused: refused!(CostOutOfRange),
        }],
    },
    Case {
        lines: rows![(8, 6, 2)],
        calls: &[Called {
            call: Call::Enrol(row!(10, 5, 1001)),
            refused: refused!(CostOutOfRange),
        }],
    },
    Case {
        lines: rows![(8, 6, 2)],
        calls: &[Called {
            call: Call::Enrol(row!(10, 5, 65_535)),
            refused: refused!(CostOutOfRange),
        }],
    },
    Case {
        lines: rows![(200, 200, 1)],
        calls: &[Called {
            call: Call::Enrol(row!(199, 199, 1)),
            refused: refused!(HyperperiodTooLong),
        }],
    },
    Case {
        lines: rows![(625, 1, 1)],
        calls: &[Called {
            call: Call::Enrol(row!(49, 1, 1)),
            refused: refused!(HyperperiodTooLong),
        }],
    },
    Case {
        lines: rows![(129, 129, 1)],
        calls: &[Called {
            call: Call::Enrol(row!(130, 130, 1)),
            refused: refused!(WatchListTooLong),
        }],
    },
];

// New costs for the lines.
static COSTS: [Case; 1] = [Case {
    lines: rows![(8, 6, 2), (13, 12, 10)],
    calls: &[
        Called {
            call: Call::Recost { line: 0, cost: 0 },
            refused: refused!(CostOutOfRange),
        },
        Called {
            call: Call::Recost { line: 0, cost: 1 },
            refused: None,
        },
        Called {
            call: Call::Recost {
                line: 1,
                cost: 1000,
            },
            refused: None,
        },
        Called {
            call: Call::Recost {
                line: 1,
                cost: 1001,
            },
            refused: refused!(CostOutOfRange),
        },
        Called {
            call: Call::Recost {
                line: 1,
                cost: 65_535,
            },
            refused: refused!(CostOutOfRange),
        },
        Called {
            call: Call::Recost { line: 2, cost: 0 },
            refused: refused!(NoSuchLine, 2),
        },
        Called {
            call: Call::Recost {
                line: 255,
                cost: 65_535,
            },
            refused: refused!(NoSuchLine, 255),
        },
    ],
}];

// What every place of a slot list holds before.
const BEFORE: u16 = 7;

// Two jobs that are due by 12.
static JOBS: [Job; 2] = [
    Job {
        line: 0,
        release: 0,
        cost: 2,
    },
    Job {
        line: 1,
        release: 0,
        cost: 10,
    },
];

// Cites of 38 and 12 in turn, of weight 1.
static BYTES: &[u8; 40] =
    b"\0\x26\0\x01\0\x0c\0\x01\0\x26\0\x01\0\x0c\0\x01\0\x26\0\x01\0\x0c\0\x01\0\x26\0\x01\0\x0c\0\x01\0\x26\0\x01\0\x0c\0\x01";

// Makes some calls on a roster with some lines.
fn compare_on(tally: &mut Tally, lines: &[Row], calls: &[Called]) {
    compare_calls(tally, &mut enrolled(Whole, lines), calls);
}

// The calls of some cases.
fn cases(group: &'static str, cases: &[Case]) -> Tally {
    let mut tally = Tally::of(group);
    for case in cases {
        compare_on(&mut tally, case.lines, case.calls);
    }
    tally
}

// How a line's number is refused, where there are two lines.
fn number_refused(number: u8) -> Option<Refusal> {
    if number < 2 {
        return None;
    }
    refused!(NoSuchLine, u32::from(number))
}

// Every number of a line, recosted and struck.
fn numbers() -> Tally {
    let mut tally = Tally::of("numbers of lines, from 0 to 255");
    for line in 0..=255 {
        let refused = number_refused(line);
        let recost = Called {
            call: Call::Recost { line, cost: 5 },
            refused,
        };
        let strike = Called {
            call: Call::Strike(line),
            refused,
        };
        compare_on(&mut tally, LINES, &[recost, strike]);
    }
    tally
}

// How cites of a length are refused: 38 and 12 are right, 38 alone covers too little, and more ask for too much.
fn length_refused(length: usize) -> Option<Refusal> {
    match length {
        4 => refused!(CountNotCovered),
        8 => None,
        12 | 16 | 20 | 24 | 28 | 32 => refused!(SupplyNotCovered),
        _ => refused!(CertificateOutOfRange),
    }
}

// Cites of every length up to 40 bytes.
fn lengths() -> Tally {
    let mut tally = Tally::of("cites of 0 to 40 bytes");
    for length in 0..=BYTES.len() {
        let call = Call::Cut {
            deadline: 25,
            divisor: 2,
            cites: &BYTES[..length],
        };
        let refused = length_refused(length);
        compare_on(&mut tally, LINES, &[Called { call, refused }]);
    }
    tally
}

// Whether two jobs that are due by 12 are met in 12 slots; fewer are refused and stay as they were.
fn runs_in(roster: &Roster<Whole>, slots: &mut [u16]) -> bool {
    let answer = roster.run(0, &JOBS, slots);
    if slots.len() < 12 {
        let short = Refusal::by(Layer::Run, Reason::ListTooShort).at(12);
        return answer == Err(short) && holds(slots, &[], BEFORE);
    }
    answer == Ok(Outcome::Met)
}

// Slot lists of every length up to 13.
fn runs() -> Tally {
    let mut tally = Tally::of("slot lists of 0 to 13 entries");
    let roster = enrolled(Whole, LINES);
    for many in 0..14 {
        tally.note(runs_in(&roster, &mut [BEFORE; 14][..many]));
    }
    tally
}

// Compares every kind of bad input.
pub(crate) fn compared() -> [Tally; 6] {
    [
        cases("lines that are refused", &UNTAKEN),
        numbers(),
        cases("costs at the edges", &COSTS),
        cases("certificates at the edges", &CUTS),
        lengths(),
        runs(),
    ]
}
