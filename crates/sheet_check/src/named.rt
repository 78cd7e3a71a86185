// The supplies that fields name, each pair of a timetable and a share.
use crate::alike::same_supply;
use crate::outputs::BEFORE;
use crate::supplies;
use grammar::Fields;
use lines::Lines;
use refusal::{Layer, Reason, Refusal};
use sheet::{supply_of, write};
use trial_tools::Tally;

static TIMETABLES: [(u8, u64); 16] = [
    (0, 0),
    (0, 1),
    (1, 0),
    (1, 1),
    (1, 2),
    (4, 3),
    (4, 15),
    (4, 16),
    (8, 0x100),
    (63, 1 << 62),
    (63, 1 << 63),
    (64, 1 << 63),
    (64, u64::MAX),
    (64, 0),
    (65, 1),
    (255, u64::MAX),
];

static SHARES: [(u8, u8); 11] = [
    (0, 0),
    (0, 1),
    (1, 0),
    (1, 1),
    (2, 1),
    (1, 2),
    (2, 3),
    (64, 64),
    (1, 64),
    (1, 65),
    (255, 255),
];

// Whether some fields name the supply that they should, or are refused as they should be.
fn is_named(fields: Fields) -> bool {
    match (supply_of(fields), supplies::named(fields)) {
        (Ok(answer), Ok(expected)) => same_supply(&answer, &expected),
        (Err(answer), Err(expected)) => answer == expected,
        _ => false,
    }
}

// Whether writing with some fields is refused as it should be, where the list is too short by one for a sheet without lines.
fn is_checked(fields: Fields) -> bool {
    let short = Refusal::by(Layer::Sheet, Reason::ListTooShort).at(17);
    let expected = supplies::named(fields).err().unwrap_or(short);
    let mut list = [BEFORE; 16];
    let answer = write(&Lines::none(), fields, &mut list);
    answer == Err(expected) && list == [BEFORE; 16]
}

// Compares every pair.
pub(crate) fn compare() -> [Tally; 2] {
    let mut named = Tally::of("supplies that fields name");
    let mut checked = Tally::of("fields checked before the list's length");
    for (length, word) in &TIMETABLES {
        for (share, of) in &SHARES {
            let fields = Fields {
                length: *length,
                word: *word,
                share: *share,
                of: *of,
            };
            named.note(is_named(fields));
            checked.note(is_checked(fields));
        }
    }
    [named, checked]
}
