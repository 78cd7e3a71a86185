// The number and the words of each reason, the word of each layer, and how refusals and ends of runs read: written out here, and compared
// with what the library writes of each. (A contract says which text a value writes where that succeeds; that it does succeed shows here.)
use refusal::{Layer, Reason, Refusal};
use run::Outcome;
use std::alloc::{AllocError, Global};
use std::fmt;
use trial_tools::Tally;

// A reason with its number and its words, as the table of refusals has them.
struct Worded {
    reason: Reason,
    number: u8,
    text: &'static str,
}

static REASONS: [Worded; 22] = [
    Worded {
        reason: Reason::LinesFull,
        number: 1,
        text: "there are 8 lines already, and a roster holds no more",
    },
    Worded {
        reason: Reason::PeriodOutOfRange,
        number: 2,
        text: "a line's period is from 1 to 1000",
    },
    Worded {
        reason: Reason::DeadlineOutOfRange,
        number: 3,
        text: "a line's deadline is from 1 to its period",
    },
    Worded {
        reason: Reason::CostOutOfRange,
        number: 4,
        text: "a line's cost is from 1 to 1000",
    },
    Worded {
        reason: Reason::HyperperiodTooLong,
        number: 5,
        text: "the least common multiple of the periods is over 30000",
    },
    Worded {
        reason: Reason::WatchListTooLong,
        number: 6,
        text: "more than 256 deadlines would have to be watched",
    },
    Worded {
        reason: Reason::NoSuchLine,
        number: 7,
        text: "there is no line with this number",
    },
    Worded {
        reason: Reason::NotWatched,
        number: 8,
        text: "the deadline to cut, or one that is cited, is not watched, or it cites itself",
    },
    Worded {
        reason: Reason::CertificateOutOfRange,
        number: 9,
        text: "a certificate has 1 to 8 cites, and its divisor and weights are from 1 to 1000",
    },
    Worded {
        reason: Reason::CountNotCovered,
        number: 10,
        text: "the cited deadlines do not cover the count of a line",
    },
    Worded {
        reason: Reason::SupplyNotCovered,
        number: 11,
        text: "the cited deadlines ask for more slots than the supply gives at the deadline to cut",
    },
    Worded {
        reason: Reason::NothingOverloaded,
        number: 12,
        text: "the roster fits, so there is no overload to witness",
    },
    Worded {
        reason: Reason::ListTooShort,
        number: 13,
        text: "the list that was lent is too short; the place is the length needed",
    },
    Worded {
        reason: Reason::JobOutOfRange,
        number: 14,
        text: "a job's line is not there, or its cost is not from 1 to the line's cost",
    },
    Worded {
        reason: Reason::JobTooSoon,
        number: 15,
        text: "a job is released before the one in front of it, or nearer than a period to its line's last",
    },
    Worded {
        reason: Reason::TooLarge,
        number: 16,
        text: "too large: at most 2048 jobs, deadlines up to 32000, sheets of up to 16384 bytes",
    },
    Worded {
        reason: Reason::TimetableUnlawful,
        number: 17,
        text: "a timetable has 1 to 64 slots, at least one of them given, and no bit past its length",
    },
    Worded {
        reason: Reason::ShareUnlawful,
        number: 18,
        text: "a share is S in F with 1 <= S <= F <= 64, and has at most 1000000 phases",
    },
    Worded {
        reason: Reason::SheetCutShort,
        number: 19,
        text: "the sheet ends inside a record, or before its closing record",
    },
    Worded {
        reason: Reason::MarkMisplaced,
        number: 20,
        text: "a record's mark is unknown, or not allowed at this place",
    },
    Worded {
        reason: Reason::ClosingCountWrong,
        number: 21,
        text: "the closing record's count is not the number of records before it",
    },
    Worded {
        reason: Reason::BytesAfterEnd,
        number: 22,
        text: "there are bytes after the closing record",
    },
];

static LAYERS: [(Layer, &str); 4] = [
    (Layer::Supply, "supply"),
    (Layer::Roster, "roster"),
    (Layer::Run, "run"),
    (Layer::Sheet, "sheet"),
];

// None, one that a table of jobs has, and the largest.
static PLACES: [(u32, &str); 3] = [(0, "0"), (2047, "2047"), (u32::MAX, "4294967295")];

static ENDS: [(Outcome, &str); 3] = [
    (Outcome::Met, "all met"),
    (
        Outcome::Missed { job: 0, at: 5 },
        "job 0 misses its deadline at 5",
    ),
    (
        Outcome::Missed {
            job: 2047,
            at: 32000,
        },
        "job 2047 misses its deadline at 32000",
    ),
];

// Whether a value reads as a text. Where writing it fails, it does not, whatever was written by then.
fn reads<T: fmt::Display>(heap: Global, value: &T, text: &str) -> bool {
    match value.to_string(heap) {
        Ok(written) => written.as_str() == text,
        Err(_) => false,
    }
}

// Compares the numbers and the words of the reasons.
pub(crate) fn reasons(heap: Global) -> Tally {
    let mut tally = Tally::of("known numbers and texts of reasons");
    for case in &REASONS {
        tally.note(case.reason.number() == case.number);
        tally.note(reads(heap, &case.reason, case.text));
    }
    tally
}

// Compares the words of the layers.
pub(crate) fn layers(heap: Global) -> Tally {
    let mut tally = Tally::of("known texts of layers");
    for (layer, text) in LAYERS {
        tally.note(layer.word() == text);
        tally.note(reads(heap, &layer, text));
    }
    tally
}

// Compares how runs end.
pub(crate) fn ends(heap: Global) -> Tally {
    let mut tally = Tally::of("known texts of ends of runs");
    for (end, text) in ENDS {
        tally.note(reads(heap, &end, text));
    }
    tally
}

// Compares how refusals read, for each reason, layer and place.
pub(crate) fn refusals(heap: Global) -> Result<Tally, AllocError> {
    let mut tally = Tally::of("known texts of refusals");
    for case in &REASONS {
        for (layer, word) in LAYERS {
            for (place, digits) in PLACES {
                let number = case.number;
                let why = case.text;
                let text = format!(in heap; "refused {number} {word} place {digits}: {why}")?;
                let refusal = Refusal {
                    reason: case.reason,
                    layer,
                    place,
                };
                tally.note(reads(heap, &refusal, text.as_str()));
            }
        }
    }
    Ok(tally)
}
