// Whether two answers are the same.
use crate::draft::Draft;
use grammar::Fields;
use lines::Lines;
use roster::Roster;
use supply::{Named, Supply};

// Supplies are compared at these numbers of slots.
static SLOTS: [u16; 9] = [0, 1, 2, 5, 13, 40, 61, 997, u16::MAX];

// Whether two supplies have as many phases, and are sure to give as much.
pub(crate) fn same_supply(one: &Named, other: &Named) -> bool {
    for n in &SLOTS {
        if one.least(*n) != other.least(*n) {
            return false;
        }
    }
    one.phases() == other.phases()
}

// Whether two sets of lines are the same, line by line: they are if they are spelled so.
pub(crate) fn same_lines(one: &Lines, other: &Lines) -> bool {
    let this = Draft::of(Fields::whole(), one);
    let that = Draft::of(Fields::whole(), other);
    this.bytes.as_slice() == that.bytes.as_slice()
}

// Whether two rosters have the same supply, lines, watch list, first rest point and verdict.
pub(crate) fn same_roster(one: &Roster<Named>, other: &Roster<Named>) -> bool {
    same_supply(one.supply(), other.supply())
        && same_lines(one.lines(), other.lines())
        && one.watched().as_slice() == other.watched().as_slice()
        && one.lines().first_rest() == other.lines().first_rest()
        && one.verdict() == other.verdict()
}
