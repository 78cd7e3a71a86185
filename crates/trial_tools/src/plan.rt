use supply::{Bottom, Named, Share, Timetable, Whole};

// The numbers of a supply: a row of slots that repeats, written as a number, and a share over it of so many slots in each turn. (The
// whole processor is a row of one slot, and no share is one slot in one, so that a slow count needs no kinds.)
#[derive(Clone, Copy)]
pub struct Plan {
    pub length: u8,
    pub word: u64,
    pub taken: u8,
    pub turn: u8,
}

impl Plan {
    ghost use Rattle.trial_tools.specs.Plan.{MakesRow, MakesPlan};

    // The whole processor.
    pub const WHOLE: Plan = Plan {
        length: 1,
        word: 1,
        taken: 1,
        turn: 1,
    };

    // Two slots in three.
    pub const TWO_THIRDS: Plan = Plan {
        length: 1,
        word: 1,
        taken: 2,
        turn: 3,
    };

    // The row as a supply: of one slot it is the whole processor.
    fn bottom(self) -> Option<Bottom>
        ensures { MakesRow self result }
    {
        if self.length == 1 {
            return Some(Bottom::Whole(Whole));
        }
        Timetable::new(self.length, self.word)
            .ok()
            .map(Bottom::Timetable)
    }

    // The supply of these numbers, unless they are unlawful: 1 in 1 is no share.
    pub fn named(self) -> Option<Named>
        ensures made_exactly_where_lawful { MakesPlan self result }
    {
        let below = self.bottom()?;
        if self.turn == 1 {
            return Some(Named::Plain(below));
        }
        Some(Named::Shared(Share::new(below, self.taken, self.turn).ok()?))
    }
}
