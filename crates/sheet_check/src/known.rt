// Sheets with known answers: the edges of each check, and which of two checks comes first.
use crate::comparison::Comparison;
use crate::outputs::{BEFORE, is_written};
use trial_tools::Tally;

// A sheet, the report on it, and the place of its refusal, if it is refused: 0 where the refusal names none.
struct Case {
    sheet: &'static [u8],
    report: &'static str,
    place: Option<u32>,
}

// Sheets by the lines and certificates that they leave.
static ACCEPTED: [Case; 8] = [
    // two lines, no lines, and full lines
    Case {
        sheet: b"SU\0\0\0\0\0\0\0\0\0\0\0LN\0\x08\0\x05\0\x02LN\0\x0f\0\x09\0\x04EN\0\x03",
        report: "lines 2\nrest 13\nwatched 3\nfits\n",
        place: None,
    },
    Case {
        sheet: b"SU\0\0\0\0\0\0\0\0\0\0\0EN\0\x01",
        report: "lines 0\nrest 1\nwatched 0\nfits\n",
        place: None,
    },
    Case {
        sheet: b"SU\0\0\0\0\0\0\0\0\0\0\0LN\0\x07\0\x05\0\x03LN\0\x0b\0\x07\0\x03LN\0\x0d\0\x0a\0\x04EN\0\x04",
        report: "lines 3\nrest 62\nwatched 18\noverloaded 12\n",
        place: None,
    },
    // a share of 2 in 3, on which the first lines ask for too much with a cost of 5, and not with one of 4
    Case {
        sheet: b"SU\0\0\0\0\0\0\0\0\0\x02\x03LN\0\x08\0\x05\0\x02LN\0\x0f\0\x09\0\x05EN\0\x03",
        report: "lines 2\nrest 13\nwatched 3\noverloaded 9\n",
        place: None,
    },
    Case {
        sheet: b"SU\0\0\0\0\0\0\0\0\0\x02\x03LN\0\x08\0\x05\0\x02LN\0\x0f\0\x09\0\x04EN\0\x03",
        report: "lines 2\nrest 13\nwatched 3\nfits\n",
        place: None,
    },
    // 25 is cut by 38 and 12 with divisor 2, and the lines are overloaded at 25; with divisor 1 it isn't cut by 12 and 14
    Case {
        sheet: b"SU\0\0\0\0\0\0\0\0\0\0\0LN\0\x08\0\x06\0\x02LN\0\x0d\0\x0c\0\x0aCU\0\x19\0\x02\x02\0\x26\0\x01\0\x0c\0\x01EN\0\x04",
        report: "lines 2\nrest 38\nwatched 6\noverloaded 25\n",
        place: None,
    },
    Case {
        sheet: b"SU\0\0\0\0\0\0\0\0\0\0\0LN\0\x08\0\x06\0\x02LN\0\x0d\0\x0c\0\x0aCU\0\x19\0\x01\x02\0\x0c\0\x01\0\x0e\0\x01EN\0\x04",
        report: "refused 11 roster record 4 byte 29\n",
        place: Some(0),
    },
    // a certificate of 8 cites
    Case {
        sheet: b"SU\0\0\0\0\0\0\0\0\0\0\0LN\0\x07\0\x05\0\x03LN\0\x0b\0\x07\0\x02LN\0\x0d\0\x0a\0\x03CU\0\x3e\0\x04\x08\0\x28\0\x02\0\x28\0\x01\0\x28\0\x01\0\x0c\0\x02\0\x0c\0\x02\0\x0a\0\x02\0\x0a\0\x01\0\x0a\0\x01EN\0\x05",
        report: "lines 3\nrest 62\nwatched 17\nfits\n",
        place: None,
    },
];

// Marks out of their place.
static MARKS: [Case; 13] = [
    // no mark, half a mark, and marks that may not stand first
    Case {
        sheet: b"",
        report: "refused 19 sheet record 1 byte 0\n",
        place: Some(0),
    },
    Case {
        sheet: b"S",
        report: "refused 19 sheet record 1 byte 0\n",
        place: Some(0),
    },
    Case {
        sheet: b"X",
        report: "refused 19 sheet record 1 byte 0\n",
        place: Some(0),
    },
    Case {
        sheet: b"XX",
        report: "refused 20 sheet record 1 byte 0\n",
        place: Some(0),
    },
    Case {
        sheet: b"SU",
        report: "refused 19 sheet record 1 byte 0\n",
        place: Some(0),
    },
    Case {
        sheet: b"su\0\0\0\0\0\0\0\0\0\0\0EN\0\x01",
        report: "refused 20 sheet record 1 byte 0\n",
        place: Some(0),
    },
    Case {
        sheet: b"LN\0\x08\0\x05\0\x02EN\0\x01",
        report: "refused 20 sheet record 1 byte 0\n",
        place: Some(0),
    },
    Case {
        sheet: b"CU",
        report: "refused 20 sheet record 1 byte 0\n",
        place: Some(0),
    },
    Case {
        sheet: b"EN\0\0",
        report: "refused 20 sheet record 1 byte 0\n",
        place: Some(0),
    },
    // marks that may not stand later
    Case {
        sheet: b"SU\0\0\0\0\0\0\0\0\0\0\0SU\0\0\0\0\0\0\0\0\0\0\0EN\0\x02",
        report: "refused 20 sheet record 2 byte 13\n",
        place: Some(0),
    },
    Case {
        sheet: b"SU\0\0\0\0\0\0\0\0\0\0\0SU",
        report: "refused 20 sheet record 2 byte 13\n",
        place: Some(0),
    },
    Case {
        sheet: b"SU\0\0\0\0\0\0\0\0\0\0\0LN\0\x08\0\x05\0\x02NL\0\x08\0\x05\0\x02EN\0\x03",
        report: "refused 20 sheet record 3 byte 21\n",
        place: Some(0),
    },
    Case {
        sheet: b"SU\0\0\0\0\0\0\0\0\0\0\0\xff\xff",
        report: "refused 20 sheet record 2 byte 13\n",
        place: Some(0),
    },
];

// Sheets that end too soon or too late.
static ENDS: [Case; 13] = [
    // sheets that end too soon
    Case {
        sheet: b"SU\0\0\0\0\0\0\0\0\0\0",
        report: "refused 19 sheet record 1 byte 0\n",
        place: Some(0),
    },
    Case {
        sheet: b"SU\0\0\0\0\0\0\0\0\0\0\0",
        report: "refused 19 sheet record 2 byte 13\n",
        place: Some(0),
    },
    Case {
        sheet: b"SU\0\0\0\0\0\0\0\0\0\0\0\xff",
        report: "refused 19 sheet record 2 byte 13\n",
        place: Some(0),
    },
    Case {
        sheet: b"SU\0\0\0\0\0\0\0\0\0\0\0LN\0\x08\0\x09\0",
        report: "refused 19 sheet record 2 byte 13\n",
        place: Some(0),
    },
    Case {
        sheet: b"SU\0\0\0\0\0\0\0\0\0\0\0CU\0\x05\0\0",
        report: "refused 19 sheet record 2 byte 13\n",
        place: Some(0),
    },
    Case {
        sheet: b"SU\0\0\0\0\0\0\0\0\0\0\0CU\0\x05\0\0\x01\0\x05\0",
        report: "refused 19 sheet record 2 byte 13\n",
        place: Some(0),
    },
    Case {
        sheet: b"SU\0\0\0\0\0\0\0\0\0\0\0EN\0",
        report: "refused 19 sheet record 2 byte 13\n",
        place: Some(0),
    },
    // the closing count, and what stands behind it
    Case {
        sheet: b"SU\0\0\0\0\0\0\0\0\0\0\0EN\0\0",
        report: "refused 21 sheet record 2 byte 13\n",
        place: Some(0),
    },
    Case {
        sheet: b"SU\0\0\0\0\0\0\0\0\0\0\0EN\0\x02",
        report: "refused 21 sheet record 2 byte 13\n",
        place: Some(0),
    },
    Case {
        sheet: b"SU\0\0\0\0\0\0\0\0\0\0\0EN\x01\x01",
        report: "refused 21 sheet record 2 byte 13\n",
        place: Some(0),
    },
    Case {
        sheet: b"SU\0\0\0\0\0\0\0\0\0\0\0EN\0\x02\0",
        report: "refused 21 sheet record 2 byte 13\n",
        place: Some(0),
    },
    Case {
        sheet: b"SU\0\0\0\0\0\0\0\0\0\0\0EN\0\x01\0",
        report: "refused 22 sheet record 3 byte 17\n",
        place: Some(0),
    },
    Case {
        sheet: b"SU\0\0\0\0\0\0\0\0\0\0\0LN\0\x08\0\x05\0\x02EN\0\x02LN\0\x0f\0\x09\0\x04EN\0\x04",
        report: "refused 22 sheet record 4 byte 25\n",
        place: Some(0),
    },
];

// Figures that are turned down.
static TURNED_DOWN: [Case; 14] = [
    // supplies that are none
    Case {
        sheet: b"SU\x41\0\0\0\0\0\0\0\x01\0\0EN\0\x01",
        report: "refused 17 supply record 1 byte 0\n",
        place: Some(0),
    },
    Case {
        sheet: b"SU\x04\0\0\0\0\0\0\0\x10\x09\x02",
        report: "refused 17 supply record 1 byte 0\n",
        place: Some(0),
    },
    Case {
        sheet: b"SU\x04\0\0\0\0\0\0\0\x0f\x03\x02",
        report: "refused 18 supply record 1 byte 0\n",
        place: Some(0),
    },
    Case {
        sheet: b"SU\0\0\0\0\0\0\0\0\0\x01\x41",
        report: "refused 18 supply record 1 byte 0\n",
        place: Some(0),
    },
    // lines that are turned down
    Case {
        sheet: b"SU\0\0\0\0\0\0\0\0\0\0\0LN\0\x08\0\x09\0\x02",
        report: "refused 3 roster record 2 byte 13\n",
        place: Some(0),
    },
    Case {
        sheet: b"SU\0\0\0\0\0\0\0\0\0\0\0LN\x03\xe9\0\0\0\0EN\0\x02",
        report: "refused 2 roster record 2 byte 13\n",
        place: Some(0),
    },
    Case {
        sheet: b"SU\0\0\0\0\0\0\0\0\0\0\0LN\x03\xe8\x03\xe8\x03\xe9EN\0\x02",
        report: "refused 4 roster record 2 byte 13\n",
        place: Some(0),
    },
    Case {
        sheet: b"SU\0\0\0\0\0\0\0\0\0\0\0LN\0\x01\0\x01\0\x01LN\0\x01\0\x01\0\x01LN\0\x01\0\x01\0\x01LN\0\x01\0\x01\0\x01LN\0\x01\0\x01\0\x01LN\0\x01\0\x01\0\x01LN\0\x01\0\x01\0\x01LN\0\x01\0\x01\0\x01LN\0\0\0\0\0\0",
        report: "refused 1 roster record 10 byte 77\n",
        place: Some(0),
    },
    Case {
        sheet: b"SU\0\0\0\0\0\0\0\0\0\0\0LN\0\xc8\0\xc8\0\x01LN\0\xc7\0\xc7\0\x01EN\0\x03",
        report: "refused 5 roster record 3 byte 21\n",
        place: Some(0),
    },
    Case {
        sheet: b"SU\0\0\0\0\0\0\0\0\0\0\0LN\0\x81\0\x81\0\x01LN\0\x82\0\x82\0\x01EN\0\x03",
        report: "refused 6 roster record 3 byte 21\n",
        place: Some(0),
    },
    // certificates that are turned down: a weight, a cite, and the count of the second line
    Case {
        sheet: b"SU\0\0\0\0\0\0\0\0\0\0\0LN\0\x08\0\x06\0\x02LN\0\x0d\0\x0c\0\x0aCU\0\x01\0\x01\x02\0\x06\0\x01\0\x06\x03\xe9EN\0\x04",
        report: "refused 9 roster record 4 byte 29\n",
        place: Some(2),
    },
    Case {
        sheet: b"SU\0\0\0\0\0\0\0\0\0\0\0LN\0\x08\0\x06\0\x02LN\0\x0d\0\x0c\0\x0aCU\0\x01\0\x01\x01\0\x07\0\x01EN\0\x04",
        report: "refused 8 roster record 4 byte 29\n",
        place: Some(0),
    },
    Case {
        sheet: b"SU\0\0\0\0\0\0\0\0\0\0\0LN\0\x08\0\x06\0\x02LN\0\x0d\0\x0c\0\x0aCU\0\x19\0\x01\x03\0\x06\0\x01\0\x0c\0\x01\0\x19\0\x01EN\0\x04",
        report: "refused 8 roster record 4 byte 29\n",
        place: Some(3),
    },
    Case {
        sheet: b"SU\0\0\0\0\0\0\0\0\0\0\0LN\0\x08\0\x06\0\x02LN\0\x0d\0\x0c\0\x0aCU\0\x19\0\x01\x01\0\x06\0\x03EN\0\x04",
        report: "refused 10 roster record 4 byte 29\n",
        place: Some(1),
    },
];

// Whether a sheet has the report and the place that are known.
fn is_known(case: &Case) -> bool {
    let mut list = [BEFORE; 64];
    let answer = sheet::report(case.sheet, &mut list);
    let place = match sheet::from_bytes(case.sheet) {
        Ok(_) => None,
        Err(refused) => Some(refused.refusal.place),
    };
    is_written(answer, &list, case.report.as_bytes()) && place == case.place
}

// Compares some cases.
fn compare_cases(comparison: &mut Comparison, group: &mut Tally, cases: &[Case]) {
    for case in cases {
        comparison.compare(group, case.sheet);
        group.note(is_known(case));
    }
}

// Compares every case.
pub(crate) fn compare(comparison: &mut Comparison) -> Tally {
    let mut group = Tally::of("sheets with known reports");
    compare_cases(comparison, &mut group, &ACCEPTED);
    compare_cases(comparison, &mut group, &MARKS);
    compare_cases(comparison, &mut group, &ENDS);
    compare_cases(comparison, &mut group, &TURNED_DOWN);
    group
}
