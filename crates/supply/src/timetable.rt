ghost use Rattle.supply.specs.Timetable.{LawfulTimetable};

mod making;
mod questions;

// A row of 1 to 64 slots that repeats for ever. Slot s of the row is given when the bit of the word worth 2^s is 1.
#[derive(Clone, Copy, PartialEq, Eq)]
pub struct Timetable {
    length: u8,
    word: u64,
    ghost lawful: { LawfulTimetable length word },
}
