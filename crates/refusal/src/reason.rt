ghost use Rattle.refusal.specs.Numbers.{number_of};
ghost use Rattle.std.specs.Prelude.{◌≡◌};

// The reasons, each with its number in the table of refusals.
#[derive(Clone, Copy, PartialEq, Eq, PartialOrd, Ord)]
pub enum Reason {
    LinesFull = 1,
    PeriodOutOfRange = 2,
    DeadlineOutOfRange = 3,
    CostOutOfRange = 4,
    HyperperiodTooLong = 5,
    WatchListTooLong = 6,
    NoSuchLine = 7,
    NotWatched = 8,
    CertificateOutOfRange = 9,
    CountNotCovered = 10,
    SupplyNotCovered = 11,
    NothingOverloaded = 12,
    ListTooShort = 13,
    JobOutOfRange = 14,
    JobTooSoon = 15,
    TooLarge = 16,
    TimetableUnlawful = 17,
    ShareUnlawful = 18,
    SheetCutShort = 19,
    MarkMisplaced = 20,
    ClosingCountWrong = 21,
    BytesAfterEnd = 22,
}

impl Reason {
    // The reason's number in the table.
    pub fn number(self) -> u8
        ensures number_from_the_table { result ≡ number_of self }
    {
        self as u8
    }
}
