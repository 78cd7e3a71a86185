// What a person reads of a refusal.
ghost use Rattle.refusal.specs.Texts.{layer_word, refusal_text, sentence};
ghost use Rattle.std.specs.Prelude.{◌≡◌, ◌≤◌, length, Some};

use crate::{Layer, Reason, Refusal};
use std::fmt;

impl Layer {
    // The word for a layer.
    pub fn word(self) -> &'static str
        ensures word_from_the_table { result.now ≡ layer_word self }
        ensures at_most_6_bytes { length result.now ≤ 6 }
    {
        match self {
            Layer::Supply => "supply",
            Layer::Roster => "roster",
            Layer::Run => "run",
            Layer::Sheet => "sheet",
        }
    }
}

impl fmt::Display for Layer {
    ghost output = { λ layer. Some (layer_word layer) };

    fn fmt<W: fmt::Write>(&self, f: &mut fmt::Formatter<W>) -> fmt::Result {
        f.write_str(self.word())
    }
}

// The words for a reason: what was wrong, and what would be right.
fn sentence(reason: Reason) -> &'static str
    ensures { result.now ≡ sentence reason }
{
    match reason {
        Reason::LinesFull => "there are 8 lines already, and a roster holds no more",
        Reason::PeriodOutOfRange => "a line's period is from 1 to 1000",
        Reason::DeadlineOutOfRange => "a line's deadline is from 1 to its period",
        Reason::CostOutOfRange => "a line's cost is from 1 to 1000",
        Reason::HyperperiodTooLong => "the least common multiple of the periods is over 30000",
        Reason::WatchListTooLong => "more than 256 deadlines would have to be watched",
        Reason::NoSuchLine => "there is no line with this number",
        Reason::NotWatched =>
            "the deadline to cut, or one that is cited, is not watched, or it cites itself",
        Reason::CertificateOutOfRange =>
            "a certificate has 1 to 8 cites, and its divisor and weights are from 1 to 1000",
        Reason::CountNotCovered => "the cited deadlines do not cover the count of a line",
        Reason::SupplyNotCovered =>
            "the cited deadlines ask for more slots than the supply gives at the deadline to cut",
        Reason::NothingOverloaded => "the roster fits, so there is no overload to witness",
        Reason::ListTooShort =>
            "the list that was lent is too short; the place is the length needed",
        Reason::JobOutOfRange =>
            "a job's line is not there, or its cost is not from 1 to the line's cost",
        Reason::JobTooSoon =>
            "a job is released before the one in front of it, or nearer than a period to its line's last",
        Reason::TooLarge =>
            "too large: at most 2048 jobs, deadlines up to 32000, sheets of up to 16384 bytes",
        Reason::TimetableUnlawful =>
            "a timetable has 1 to 64 slots, at least one of them given, and no bit past its length",
        Reason::ShareUnlawful =>
            "a share is S in F with 1 <= S <= F <= 64, and has at most 1000000 phases",
        Reason::SheetCutShort => "the sheet ends inside a record, or before its closing record",
        Reason::MarkMisplaced => "a record's mark is unknown, or not allowed at this place",
        Reason::ClosingCountWrong =>
            "the closing record's count is not the number of records before it",
        Reason::BytesAfterEnd => "there are bytes after the closing record",
    }
}

impl fmt::Display for Reason {
    ghost output = { λ reason. Some (sentence reason) };

    fn fmt<W: fmt::Write>(&self, f: &mut fmt::Formatter<W>) -> fmt::Result {
        f.write_str(sentence(*self))
    }
}

impl fmt::Display for Refusal {
    ghost output = { λ refusal. Some (refusal_text refusal) };

    fn fmt<W: fmt::Write>(&self, f: &mut fmt::Formatter<W>) -> fmt::Result {
        let number = self.reason.number();
        let layer = self.layer;
        let place = self.place;
        let reason = self.reason;
        write!(f, "refused {number} {layer} place {place}: {reason}")
    }
}
