// Calls whose answers are known.
use crate::held::{holds, rows_of};
use lines::Row;
use refusal::Refusal;
use roster::{Call, Roster};
use supply::Supply;
use trial_tools::Tally;

// A call, and how it is refused, if it is. In cites a deadline and its weight are two bytes each, the high byte first.
#[derive(Clone, Copy)]
pub(crate) struct Called {
    pub(crate) call: Call<'static>,
    pub(crate) refused: Option<Refusal>,
}

// Makes a call. One that should be refused should leave the lines, the watch list and the verdict as they were.
fn compare_call<S: Supply>(tally: &mut Tally, roster: &mut Roster<S>, called: &Called) {
    let rows = rows_of(roster.lines());
    let watched = *roster.watched();
    let verdict = roster.verdict();
    tally.note(roster.make(called.call).err() == called.refused);
    if called.refused.is_some() {
        let same = holds(roster, rows.as_slice(), watched.as_slice());
        tally.note(same && roster.verdict() == verdict);
    }
}

// Makes some calls, one after another.
pub(crate) fn compare_calls<S: Supply>(
    tally: &mut Tally,
    roster: &mut Roster<S>,
    calls: &[Called],
) {
    for called in calls {
        compare_call(tally, roster, called);
    }
}

// A roster with some lines; one that is refused is not among them.
pub(crate) fn enrolled<S: Supply>(supply: S, rows: &[Row]) -> Roster<S> {
    let mut roster = Roster::open(supply);
    for row in rows {
        let _ = roster.enrol(*row);
    }
    roster
}
