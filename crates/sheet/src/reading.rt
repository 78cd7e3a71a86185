// Reading a sheet into a roster.
ghost use Rattle.std.specs.Prelude.{◌≤◌, length};
ghost use Rattle.sheet.specs.Reading.{Going, Next, Reads, ReadsInto};

use crate::records::{by_sheet, first, step};
use crate::sheet_refusal::SheetRefusal;
use refusal::Reason;
use roster::Roster;
use supply::{Bottom, Named, Whole};

// The longest sheet, in bytes.
const LONGEST: usize = 16_384;

// The length of the first record, and of the last.
const FIRST: usize = 13;

const LAST: usize = 4;

// Takes the record at a byte of a sheet, behind so many others, and answers its length, or none for the last.
fn next(
    roster: &mut Roster<Named>,
    bytes: &[u8],
    at: usize,
    before: u32,
) -> Result<Option<usize>, SheetRefusal>
    requires { Going roster.old bytes.now at before × (length bytes.now ≤ 16384) }
    ensures { Next roster.old roster.new bytes.now at before result }
{
    step(roster, &bytes[at..], before).map_err(|why| SheetRefusal::at(why, before + 1, at as u32))
}

// Takes the records of a sheet behind its first one, to its end.
fn records(mut roster: Roster<Named>, bytes: &[u8]) -> Result<Roster<Named>, SheetRefusal>
    requires { Going roster bytes.now 13 1 × (length bytes.now ≤ 16384) }
    ensures { Reads bytes.now result }
{
    let mut at = FIRST;
    let mut before = 1;
    while let Some(size) = next(&mut roster, bytes, at, before)? {
        at += size;
        before += 1;
    }
    let end = at + LAST;
    if end < bytes.len() {
        let why = by_sheet(Reason::BytesAfterEnd);
        return Err(SheetRefusal::at(why, before + 2, end as u32));
    }
    Ok(roster)
}

// The roster of a sheet.
pub fn from_bytes(bytes: &[u8]) -> Result<Roster<Named>, SheetRefusal>
    ensures read_by_the_grammar { Reads bytes.now result }
{
    if bytes.len() > LONGEST {
        return Err(by_sheet(Reason::TooLarge).into());
    }
    let supply = first(bytes).map_err(|why| SheetRefusal::at(why, 1, 0))?;
    records(Roster::open(supply), bytes)
}

// Reads a sheet into a roster, in place of what it held. A refused sheet leaves it without lines, on the whole processor.
pub fn read(roster: &mut Roster<Named>, bytes: &[u8]) -> Result<(), SheetRefusal>
    ensures reads_or_empties_the_roster { ReadsInto bytes.now roster.new result }
{
    *roster = Roster::open(Named::Plain(Bottom::Whole(Whole)));
    *roster = from_bytes(bytes)?;
    Ok(())
}
