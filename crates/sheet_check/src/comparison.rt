// Sheets that the library and the plain reader read, and whether they make the same of them.
use crate::alike::same_roster;
use crate::plain;
use crate::plain::Outcome;
use refusal::Reason;
use sheet::SheetRefusal;
use short_list::ShortList;
use trial_tools::Tally;

// The reasons of refusals, and whether a sheet can be refused for each.
static REASONS: [(Reason, bool); 22] = [
    (Reason::LinesFull, true),
    (Reason::PeriodOutOfRange, true),
    (Reason::DeadlineOutOfRange, true),
    (Reason::CostOutOfRange, true),
    (Reason::HyperperiodTooLong, true),
    (Reason::WatchListTooLong, true),
    (Reason::NoSuchLine, false),
    (Reason::NotWatched, true),
    (Reason::CertificateOutOfRange, true),
    (Reason::CountNotCovered, true),
    (Reason::SupplyNotCovered, true),
    (Reason::NothingOverloaded, false),
    (Reason::ListTooShort, false),
    (Reason::JobOutOfRange, false),
    (Reason::JobTooSoon, false),
    (Reason::TooLarge, true),
    (Reason::TimetableUnlawful, true),
    (Reason::ShareUnlawful, true),
    (Reason::SheetCutShort, true),
    (Reason::MarkMisplaced, true),
    (Reason::ClosingCountWrong, true),
    (Reason::BytesAfterEnd, true),
];

// Reasons, each of them once.
type Reasons = ShortList<Reason, 32>;

// What is compared of every sheet, whichever group it is of, and the reasons for which one was refused.
#[derive(Clone, Copy)]
pub(crate) struct Comparison {
    pub(crate) accepted: Tally,
    pub(crate) certified: Tally,
    pub(crate) refused: Tally,
    pub(crate) reread: Tally,
    pub(crate) reported: Tally,
    pub(crate) written: Tally,
    pub(crate) read_back: Tally,
    pub(crate) rewritten: Tally,
    met: Reasons,
}

impl Comparison {
    // Nothing is compared yet.
    pub(crate) fn new() -> Comparison {
        Comparison {
            accepted: Tally::of("accepted sheets of all these"),
            certified: Tally::of("of them with certificates"),
            refused: Tally::of("refused sheets of all these"),
            reread: Tally::of("sheets read in place of other lines"),
            reported: Tally::of("reports on sheets"),
            written: Tally::of("sheets written"),
            read_back: Tally::of("written sheets read back"),
            rewritten: Tally::of("sheets of lines alone that are their own rewriting"),
            met: ShortList::none(Reason::TooLarge),
        }
    }

    // Compares what is read of a sheet, reported on it and written of it.
    pub(crate) fn compare(&mut self, group: &mut Tally, bytes: &[u8]) {
        let expected = plain::reading(bytes);
        let same = is_read(bytes, &expected);
        group.note(same);
        self.reread.note(is_reread(bytes, &expected));
        self.compare_report(bytes, &expected);
        match expected.refused {
            Some(refused) => {
                self.refused.note(same);
                meet(&mut self.met, refused.refusal.reason);
            }
            None => {
                let roster = &expected.roster;
                self.accepted.note(same);
                if roster.watched().len() < roster.lines().full_list().len() {
                    self.certified.note(same);
                }
                self.compare_written(bytes, roster);
            }
        }
    }

    // Compares a sheet whose refusal is known, also with that.
    pub(crate) fn compare_refused(
        &mut self,
        group: &mut Tally,
        bytes: &[u8],
        refused: SheetRefusal,
    ) {
        self.compare(group, bytes);
        group.note(sheet::from_bytes(bytes).err() == Some(refused));
    }

    // Whether each reason was met, or not, as it should be.
    pub(crate) fn reasons(&self) -> Tally {
        let mut tally = Tally::of("numbers of refusals met");
        for (reason, expected) in &REASONS {
            tally.note(self.met.as_slice().contains(reason) == *expected);
        }
        tally
    }
}

// Takes down a reason for which a sheet was refused.
fn meet(met: &mut Reasons, reason: Reason) {
    if !met.as_slice().contains(&reason) {
        let _ = met.push(reason);
    }
}

// A sheet with a line on a share of a timetable, whose lines are there before another sheet is read.
static OTHER: &[u8] = b"SU\x04\0\0\0\0\0\0\0\x03\x01\x02LN\0\x08\0\x05\0\x02EN\0\x02";

// Whether reading a sheet gives what it should.
fn is_read(bytes: &[u8], expected: &Outcome) -> bool {
    match sheet::from_bytes(bytes) {
        Ok(roster) => expected.refused.is_none() && same_roster(&roster, &expected.roster),
        Err(refused) => expected.refused == Some(refused),
    }
}

// Whether reading a sheet in place of other lines leaves what it should, and after a refused sheet no lines on the whole processor.
fn is_reread(bytes: &[u8], expected: &Outcome) -> bool {
    let mut other = plain::reading(OTHER);
    let answer = sheet::read(&mut other.roster, bytes);
    other.refused.is_none()
        && answer.err() == expected.refused
        && same_roster(&other.roster, &expected.roster)
}
