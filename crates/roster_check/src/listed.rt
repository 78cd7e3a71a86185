// Lists of calls, made in one go, on three supplies.
use crate::held::holds;
use crate::nothing::Nothing;
use lines::Row;
use roster::{Call, after, judged};
use supply::{Share, Supply, Whole};
use trial_tools::{Tally, row, rows};

// Calls that end with 8/6 and 13/12 at costs 2 and 10; the second, fifth, sixth and last are refused.
static CALLS: [Call; 8] = [
    Call::Enrol(row!(8, 6, 2)),
    Call::Enrol(row!(8, 9, 2)),
    Call::Enrol(row!(13, 12, 9)),
    Call::Recost { line: 1, cost: 10 },
    Call::Recost { line: 2, cost: 1 },
    Call::Strike(2),
    Call::Cut {
        deadline: 25,
        divisor: 2,
        cites: &[0, 38, 0, 1, 0, 12, 0, 1],
    },
    Call::Cut {
        deadline: 22,
        divisor: 1,
        cites: &[0, 14, 0, 1, 0, 25, 0],
    },
];

// The lines that the calls leave.
static LEFT: &[Row; 2] = rows![(8, 6, 2), (13, 12, 10)];

// Makes the calls on a supply.
fn compare<S: Supply + Copy>(tally: &mut Tally, supply: S, watched: &[u16], verdict: u16) {
    let judged = judged(supply, &CALLS);
    tally.note(holds(&judged.roster, LEFT, watched));
    tally.note(judged.verdict == Some(verdict));
    tally.note(holds(&after(supply, &CALLS), LEFT, watched));
}

// The calls on the whole processor, on two thirds of it, where 25 is not cut, and on a supply that gives nothing.
pub(crate) fn compared() -> Tally {
    let mut tally = Tally::of("lists of calls");
    compare(&mut tally, Whole, &[6, 12, 14, 22, 30, 38], 25);
    match Share::new(Whole, 2, 3) {
        Ok(share) => compare(&mut tally, share, &[6, 12, 14, 22, 25, 30, 38], 12),
        Err(_) => tally.note(false),
    }
    compare(&mut tally, Nothing, &[6, 12, 14, 22, 30, 38], 6);
    tally
}
