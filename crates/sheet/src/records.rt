// The records of a sheet, each taken apart by its mark and its fields.
ghost use Rattle.grammar.specs.Reading.{by_sheet};
ghost use Rattle.sheet.specs.Stepping.{Opening, Taking, Closing, Stepping};
ghost use Rattle.std.specs.Prelude.{◌≡◌, ◌++◌, codes};

use crate::supplies::supply_of;
use grammar::Fields;
use lines::Row;
use refusal::{Layer, Reason, Refusal};
use roster::Roster;
use supply::Named;

// A refusal of the sheet's own.
pub(crate) fn by_sheet(reason: Reason) -> Refusal
    ensures { result ≡ by_sheet reason }
{
    Refusal::by(Layer::Sheet, reason)
}

// The supply that the first record names, by its fields.
fn opened(fields: &[u8]) -> Result<Named, Refusal>
    ensures { Opening (codes "SU" ++ fields.now) result }
{
    let [length, w7, w6, w5, w4, w3, w2, w1, w0, share, of, ..] = fields else {
        return Err(by_sheet(Reason::SheetCutShort));
    };
    supply_of(Fields {
        length: *length,
        word: u64::from_be_bytes([*w7, *w6, *w5, *w4, *w3, *w2, *w1, *w0]),
        share: *share,
        of: *of,
    })
}

// The supply that a sheet's first record names.
pub(crate) fn first(bytes: &[u8]) -> Result<Named, Refusal>
    ensures { Opening bytes.now result }
{
    match bytes {
        [b'S', b'U', fields @ ..] => opened(fields),
        [_, _, ..] => Err(by_sheet(Reason::MarkMisplaced)),
        _ => Err(by_sheet(Reason::SheetCutShort)),
    }
}

// Enrols the line of a record, by its fields, and answers the record's length.
fn enrolled(roster: &mut Roster<Named>, fields: &[u8]) -> Result<usize, Refusal>
    ensures { Taking roster.old roster.new (codes "LN" ++ fields.now) result }
{
    let [t1, t0, d1, d0, c1, c0, ..] = fields else {
        return Err(by_sheet(Reason::SheetCutShort));
    };
    roster.enrol(Row {
        period: u16::from_be_bytes([*t1, *t0]),
        deadline: u16::from_be_bytes([*d1, *d0]),
        cost: u16::from_be_bytes([*c1, *c0]),
    })?;
    Ok(8)
}

// Makes the cut of a record, by its fields, and answers the record's length. The cites go on as they stand in the sheet.
fn cut(roster: &mut Roster<Named>, fields: &[u8]) -> Result<usize, Refusal>
    ensures { Taking roster.old roster.new (codes "CU" ++ fields.now) result }
{
    let [d1, d0, q1, q0, number, cites @ ..] = fields else {
        return Err(by_sheet(Reason::SheetCutShort));
    };
    let length = 4 * usize::from(*number);
    if cites.len() < length {
        return Err(by_sheet(Reason::SheetCutShort));
    }
    let deadline = u16::from_be_bytes([*d1, *d0]);
    let divisor = u16::from_be_bytes([*q1, *q0]);
    roster.cut(deadline, divisor, &cites[0..length])?;
    Ok(7 + length)
}

// Whether the last record, by its fields, counts those before it.
fn closed(fields: &[u8], before: u32) -> Result<(), Refusal>
    ensures { Closing before (codes "EN" ++ fields.now) result }
{
    let [n1, n0, ..] = fields else {
        return Err(by_sheet(Reason::SheetCutShort));
    };
    if u32::from(u16::from_be_bytes([*n1, *n0])) != before {
        return Err(by_sheet(Reason::ClosingCountWrong));
    }
    Ok(())
}

// Takes the record at the front of the rest of a sheet, behind so many others, and answers its length, or none for the last.
pub(crate) fn step(
    roster: &mut Roster<Named>,
    rest: &[u8],
    before: u32,
) -> Result<Option<usize>, Refusal>
    ensures { Stepping roster.old roster.new before rest.now result }
{
    match rest {
        [b'L', b'N', fields @ ..] => Ok(Some(enrolled(roster, fields)?)),
        [b'C', b'U', fields @ ..] => Ok(Some(cut(roster, fields)?)),
        [b'E', b'N', fields @ ..] => {
            closed(fields, before)?;
            Ok(None)
        }
        [_, _, ..] => Err(by_sheet(Reason::MarkMisplaced)),
        _ => Err(by_sheet(Reason::SheetCutShort)),
    }
}
