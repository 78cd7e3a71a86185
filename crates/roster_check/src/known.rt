// Rosters whose figures are known, worked out by hand or published.
use crate::calls::{Called, compare_calls, enrolled};
use lines::Row;
use roster::{Call, Roster};
use supply::{Named, Whole};
use trial_tools::{Plan, Tally, Watched, refused, rows};

// A roster: its supply and lines, its first rest point and full watch list, some cuts, what they leave, and the verdict,
// which they leave, too.
struct Case {
    plan: Plan,
    lines: &'static [Row],
    rest: u16,
    watched: Watched,
    cuts: &'static [Called],
    left: Watched,
    verdict: Option<u16>,
}

static CASES: [Case; 10] = [
    Case {
        plan: Plan::WHOLE,
        lines: rows![],
        rest: 1,
        watched: Watched::These(&[]),
        cuts: &[Called {
            call: Call::Cut {
                deadline: 1,
                divisor: 1,
                cites: &[0, 1, 0, 1],
            },
            refused: refused!(NotWatched),
        }],
        left: Watched::These(&[]),
        verdict: None,
    },
    Case {
        plan: Plan::WHOLE,
        lines: rows![(8, 5, 2), (15, 9, 5)],
        rest: 13,
        watched: Watched::These(&[5, 9, 13]),
        cuts: &[],
        left: Watched::These(&[5, 9, 13]),
        verdict: None,
    },
    Case {
        plan: Plan::TWO_THIRDS,
        lines: rows![(8, 5, 2), (15, 9, 5)],
        rest: 13,
        watched: Watched::These(&[5, 9, 13]),
        cuts: &[],
        left: Watched::These(&[5, 9, 13]),
        verdict: Some(9),
    },
    Case {
        plan: Plan::TWO_THIRDS,
        lines: rows![(8, 5, 2), (15, 9, 4)],
        rest: 13,
        watched: Watched::These(&[5, 9, 13]),
        cuts: &[],
        left: Watched::These(&[5, 9, 13]),
        verdict: None,
    },
    Case {
        plan: Plan::WHOLE,
        lines: rows![(9, 7, 4), (15, 12, 7)],
        rest: 27,
        watched: Watched::These(&[7, 12, 16, 25, 27]),
        cuts: &[Called {
            call: Call::Cut {
                deadline: 25,
                divisor: 1,
                cites: &[0, 16, 0, 1, 0, 7, 0, 1],
            },
            refused: None,
        }],
        left: Watched::These(&[7, 12, 16, 27]),
        verdict: None,
    },
    // 19 leaves, and then 26 may not cite it.
    Case {
        plan: Plan::WHOLE,
        lines: rows![(7, 5, 3), (11, 7, 2), (13, 10, 3)],
        rest: 62,
        watched: Watched::Many(18),
        cuts: &[
            Called {
                call: Call::Cut {
                    deadline: 62,
                    divisor: 1,
                    cites: &[0, 40, 0, 1, 0, 12, 0, 1, 0, 10, 0, 1],
                },
                refused: None,
            },
            Called {
                call: Call::Cut {
                    deadline: 19,
                    divisor: 1,
                    cites: &[0, 7, 0, 1, 0, 12, 0, 1],
                },
                refused: None,
            },
            Called {
                call: Call::Cut {
                    deadline: 26,
                    divisor: 1,
                    cites: &[0, 7, 0, 1, 0, 19, 0, 1],
                },
                refused: refused!(NotWatched, 2),
            },
        ],
        left: Watched::These(&[5, 7, 10, 12, 18, 23, 26, 29, 33, 36, 40, 47, 49, 51, 54, 61]),
        verdict: None,
    },
    // 25 is overloaded and not watched; 38 is the first of the watched ones.
    Case {
        plan: Plan::WHOLE,
        lines: rows![(8, 6, 2), (13, 12, 10)],
        rest: 38,
        watched: Watched::These(&[6, 12, 14, 22, 25, 30, 38]),
        cuts: &[
            Called {
                call: Call::Cut {
                    deadline: 25,
                    divisor: 1,
                    cites: &[0, 12, 0, 1, 0, 14, 0, 1],
                },
                refused: refused!(SupplyNotCovered),
            },
            Called {
                call: Call::Cut {
                    deadline: 25,
                    divisor: 2,
                    cites: &[0, 38, 0, 1, 0, 12, 0, 1],
                },
                refused: None,
            },
            Called {
                call: Call::Cut {
                    deadline: 25,
                    divisor: 2,
                    cites: &[0, 38, 0, 1, 0, 12, 0, 1],
                },
                refused: refused!(NotWatched),
            },
            Called {
                call: Call::Cut {
                    deadline: 22,
                    divisor: 1,
                    cites: &[0, 14, 0, 1, 0, 25, 0, 1],
                },
                refused: refused!(NotWatched, 2),
            },
            Called {
                call: Call::Cut {
                    deadline: 22,
                    divisor: 1,
                    cites: &[0, 14, 0, 1, 0, 6, 0, 1],
                },
                refused: None,
            },
            Called {
                call: Call::Cut {
                    deadline: 30,
                    divisor: 1,
                    cites: &[0, 14, 0, 1, 0, 14, 0, 1],
                },
                refused: None,
            },
        ],
        left: Watched::These(&[6, 12, 14, 38]),
        verdict: Some(25),
    },
    // By their lengths the cites would ask for 50 of 50 slots; on this share they ask for 33 of 32.
    Case {
        plan: Plan::TWO_THIRDS,
        lines: rows![(8, 6, 2), (13, 12, 6)],
        rest: 38,
        watched: Watched::These(&[6, 12, 14, 22, 25, 30, 38]),
        cuts: &[Called {
            call: Call::Cut {
                deadline: 25,
                divisor: 2,
                cites: &[0, 38, 0, 1, 0, 12, 0, 1],
            },
            refused: refused!(SupplyNotCovered),
        }],
        left: Watched::These(&[6, 12, 14, 22, 25, 30, 38]),
        verdict: Some(14),
    },
    Case {
        plan: Plan::WHOLE,
        lines: rows![(128, 128, 64), (129, 129, 64)],
        rest: 16512,
        watched: Watched::Many(256),
        cuts: &[],
        left: Watched::Many(256),
        verdict: None,
    },
    Case {
        plan: Plan::WHOLE,
        lines: rows![(625, 1, 1), (48, 1, 1)],
        rest: 1,
        watched: Watched::These(&[1]),
        cuts: &[],
        left: Watched::These(&[1]),
        verdict: Some(1),
    },
];

// Of the 18 deadlines that 7/5, 11/7 and 13/10 watch five are enough.
static FIVE_OF_18: Case = Case {
    plan: Plan::WHOLE,
    lines: rows![(7, 5, 3), (11, 7, 3), (13, 10, 4)],
    rest: 62,
    watched: Watched::These(&[
        5, 7, 10, 12, 18, 19, 23, 26, 29, 33, 36, 40, 47, 49, 51, 54, 61, 62,
    ]),
    cuts: &[
        Called {
            call: Call::Cut {
                deadline: 18,
                divisor: 1,
                cites: &[0, 7, 0, 1, 0, 10, 0, 1],
            },
            refused: None,
        },
        Called {
            call: Call::Cut {
                deadline: 23,
                divisor: 1,
                cites: &[0, 10, 0, 1, 0, 12, 0, 1],
            },
            refused: None,
        },
        Called {
            call: Call::Cut {
                deadline: 26,
                divisor: 1,
                cites: &[0, 12, 0, 2],
            },
            refused: None,
        },
        Called {
            call: Call::Cut {
                deadline: 29,
                divisor: 1,
                cites: &[0, 7, 0, 1, 0, 10, 0, 1, 0, 12, 0, 1],
            },
            refused: None,
        },
        Called {
            call: Call::Cut {
                deadline: 33,
                divisor: 1,
                cites: &[0, 7, 0, 1, 0, 12, 0, 2],
            },
            refused: None,
        },
        Called {
            call: Call::Cut {
                deadline: 36,
                divisor: 1,
                cites: &[0, 10, 0, 1, 0, 12, 0, 2],
            },
            refused: None,
        },
        Called {
            call: Call::Cut {
                deadline: 47,
                divisor: 1,
                cites: &[0, 5, 0, 1, 0, 40, 0, 1],
            },
            refused: None,
        },
        Called {
            call: Call::Cut {
                deadline: 49,
                divisor: 1,
                cites: &[0, 10, 0, 1, 0, 12, 0, 3],
            },
            refused: None,
        },
        Called {
            call: Call::Cut {
                deadline: 51,
                divisor: 1,
                cites: &[0, 10, 0, 1, 0, 40, 0, 1],
            },
            refused: None,
        },
        Called {
            call: Call::Cut {
                deadline: 54,
                divisor: 1,
                cites: &[0, 12, 0, 1, 0, 40, 0, 1],
            },
            refused: None,
        },
        Called {
            call: Call::Cut {
                deadline: 61,
                divisor: 1,
                cites: &[0, 5, 0, 1, 0, 12, 0, 1, 0, 40, 0, 1],
            },
            refused: None,
        },
        Called {
            call: Call::Cut {
                deadline: 62,
                divisor: 1,
                cites: &[0, 10, 0, 1, 0, 12, 0, 1, 0, 40, 0, 1],
            },
            refused: None,
        },
        Called {
            call: Call::Cut {
                deadline: 19,
                divisor: 1,
                cites: &[0, 7, 0, 1, 0, 12, 0, 1],
            },
            refused: None,
        },
    ],
    left: Watched::These(&[5, 7, 10, 12, 40]),
    verdict: Some(12),
};

// The groups of known figures.
#[derive(Clone, Copy)]
struct Known {
    rests: Tally,
    lists: Tally,
    cuts: Tally,
    verdicts: Tally,
}

impl Known {
    // The figures of one roster.
    fn compare(&mut self, case: &Case) {
        let Some(supply) = case.plan.named() else {
            self.rests.note(false);
            return;
        };
        let mut roster = enrolled(supply, case.lines);
        self.rests.note(roster.lines().first_rest() == case.rest);
        self.compare_held(&roster, &case.watched, case.verdict);
        compare_calls(&mut self.cuts, &mut roster, case.cuts);
        self.compare_held(&roster, &case.left, case.verdict);
    }

    // The figures of 7/5, 11/7 and 13/10.
    fn compare_three(&mut self) {
        self.compare(&FIVE_OF_18);
        self.lists.note(deadlines_of_three() == 281);
    }

    // What a roster watches, and its verdict.
    fn compare_held(&mut self, roster: &Roster<Named>, watched: &Watched, verdict: Option<u16>) {
        self.lists.note(watched.are(roster.watched()));
        self.verdicts.note(roster.verdict() == verdict);
    }
}

// How many deadlines 7/5, 11/7 and 13/10 have in their hyperperiod of 1,001.
fn deadlines_of_three() -> u16 {
    let three = enrolled(Whole, rows![(7, 5, 1), (11, 7, 1), (13, 10, 1)]);
    let last = three.lines().hyperperiod();
    let mut many = 0;
    let mut at = 0;
    for number in 1..=last {
        let Some(next) = three.lines().next_deadline(at, last) else {
            break;
        };
        many = number;
        at = next;
    }
    many
}

// Compares every known figure.
pub(crate) fn compared() -> [Tally; 4] {
    let mut known = Known {
        rests: Tally::of("known rest points"),
        lists: Tally::of("known watch lists"),
        cuts: Tally::of("known cuts"),
        verdicts: Tally::of("known verdicts"),
    };
    for case in &CASES {
        known.compare(case);
    }
    known.compare_three();
    [known.rests, known.lists, known.cuts, known.verdicts]
}
