// What a sheet should give, by the rules: its records are cut off one after another by their marks and lengths, and judged. It shares
// no code with the reader.
use crate::supplies;
use grammar::Fields;
use lines::Row;
use refusal::{Layer, Reason, Refusal};
use roster::Roster;
use sheet::SheetRefusal;
use supply::{Bottom, Named, Whole};

// The longest sheet.
const LONGEST: usize = 16_384;

// What reading a sheet leaves: a roster, or none of its lines and why it is refused.
#[derive(Drop)]
pub(crate) struct Outcome {
    pub(crate) roster: Roster<Named>,
    pub(crate) refused: Option<SheetRefusal>,
}

// A roster without lines on the whole processor.
fn empty() -> Roster<Named> {
    Roster::open(Named::Plain(Bottom::Whole(Whole)))
}

// A refusal at a record, from 1, that begins at a byte. Sheets are far too short for larger numbers.
pub(crate) fn at(refusal: Refusal, record: usize, byte: usize) -> SheetRefusal {
    SheetRefusal {
        refusal,
        record: u32::try_from(record).unwrap_or(u32::MAX),
        byte: u32::try_from(byte).unwrap_or(u32::MAX),
    }
}

// A refusal of the sheet's own.
pub(crate) fn by_sheet(reason: Reason) -> Refusal {
    Refusal::by(Layer::Sheet, reason)
}

// The byte at a place of a record.
fn byte(record: &[u8], at: usize) -> u8 {
    record.get(at).copied().unwrap_or(0)
}

// The record at the front of some bytes, which may be the first of its sheet, and what is behind it, or why there is none. The
// number of a certificate's cites stands in its seventh byte.
fn front(bytes: &[u8], is_first: bool) -> Result<(&[u8], &[u8]), Refusal> {
    if bytes.len() < 2 {
        return Err(by_sheet(Reason::SheetCutShort));
    }
    let size = match (byte(bytes, 0), byte(bytes, 1)) {
        (b'S', b'U') => 13,
        (b'L', b'N') => 8,
        (b'C', b'U') => 7 + 4 * usize::from(byte(bytes, 6)),
        (b'E', b'N') => 4,
        _ => return Err(by_sheet(Reason::MarkMisplaced)),
    };
    if bytes.starts_with(b"SU") != is_first {
        return Err(by_sheet(Reason::MarkMisplaced));
    }
    bytes
        .split_at_checked(size)
        .ok_or(by_sheet(Reason::SheetCutShort))
}

// The number that two bytes of a record spell.
fn two(record: &[u8], at: usize) -> u16 {
    u16::from_be_bytes([byte(record, at), byte(record, at.saturating_add(1))])
}

// The fields of a first record.
pub(crate) fn fields(record: &[u8]) -> Fields {
    match record {
        [_, _, length, a, b, c, d, e, f, g, h, share, of, ..] => Fields {
            length: *length,
            word: u64::from_be_bytes([*a, *b, *c, *d, *e, *f, *g, *h]),
            share: *share,
            of: *of,
        },
        _ => Fields::whole(),
    }
}

// Why a record behind so many others is turned down, if it is. The first numbers behind its mark are two bytes each. A match: a sheet
// has no kinds but these four, and each is judged by a call of its own.
fn judge(roster: &mut Roster<Named>, record: &[u8], before: usize) -> Option<Refusal> {
    let [first, second, third] = [two(record, 2), two(record, 4), two(record, 6)];
    match byte(record, 0) {
        b'S' => match supplies::named(fields(record)) {
            Ok(supply) => {
                *roster = Roster::open(supply);
                None
            }
            Err(refusal) => Some(refusal),
        },
        b'L' => roster
            .enrol(Row {
                period: first,
                deadline: second,
                cost: third,
            })
            .err(),
        b'C' => roster
            .cut(first, second, record.get(7..).unwrap_or(&[]))
            .err(),
        _ => (usize::from(first) != before).then_some(by_sheet(Reason::ClosingCountWrong)),
    }
}

// Takes the record at the front of some bytes, behind so many others, and answers what is behind it.
fn taken<'a>(
    roster: &mut Roster<Named>,
    bytes: &'a [u8],
    before: usize,
) -> Result<&'a [u8], Refusal> {
    let (record, behind) = front(bytes, before == 0)?;
    match judge(roster, record, before) {
        None => Ok(behind),
        Some(refusal) => Err(refusal),
    }
}

// Reads a sheet into a roster. Each record takes bytes off the front, so there are no more records than bytes; a sheet of none is cut
// short at once.
fn read(roster: &mut Roster<Named>, bytes: &[u8]) -> Result<(), SheetRefusal> {
    if bytes.len() > LONGEST {
        return Err(at(by_sheet(Reason::TooLarge), 0, 0));
    }
    let mut rest = bytes;
    let mut is_closed = false;
    for before in 0..bytes.len() {
        let number = before.saturating_add(1);
        let start = bytes.len().saturating_sub(rest.len());
        if is_closed {
            return if rest.is_empty() {
                Ok(())
            } else {
                Err(at(by_sheet(Reason::BytesAfterEnd), number, start))
            };
        }
        is_closed = rest.starts_with(b"EN");
        match taken(roster, rest, before) {
            Ok(behind) => rest = behind,
            Err(refusal) => return Err(at(refusal, number, start)),
        }
    }
    Err(at(by_sheet(Reason::SheetCutShort), 1, 0))
}

// What a sheet should leave.
pub(crate) fn reading(bytes: &[u8]) -> Outcome {
    let mut roster = empty();
    let refused = read(&mut roster, bytes).err();
    if refused.is_some() {
        roster = empty();
    }
    Outcome { roster, refused }
}
