ghost use Rattle.supply.specs.Named.{bottom, named};
ghost use Rattle.supply.specs.Bottoms.{bottom_lawful, named_lawful};

use crate::share::Share;
use crate::supply::Supply;
use crate::timetable::Timetable;
use crate::whole::Whole;

// Two enums, and not one generic choice of two supplies: that would have callers write First(First(Whole)) for Plain(Bottom::Whole(Whole)).

// What a share may stand on: the whole processor or a timetable.
#[derive(Clone, Copy)]
pub enum Bottom {
    Whole(Whole),
    Timetable(Timetable),
}

// The supplies that an office can name: a bottom, or a share of one.
#[derive(Clone, Copy)]
pub enum Named {
    Plain(Bottom),
    Shared(Share<Bottom>),
}

impl Supply for Bottom {
    ghost meaning = { bottom };

    ghost counts = { λ s. (bottom_lawful s).counts };

    ghost windows = { λ s. (bottom_lawful s).windows };

    ghost attained = { λ s. (bottom_lawful s).attained };

    fn phases(&self) -> u32 {
        match self {
            Bottom::Whole(below) => below.phases(),
            Bottom::Timetable(below) => below.phases(),
        }
    }

    fn count(&self, phase: u32, n: u16) -> u16 {
        match self {
            Bottom::Whole(below) => below.count(phase, n),
            Bottom::Timetable(below) => below.count(phase, n),
        }
    }

    fn least(&self, n: u16) -> (u16, u32) {
        match self {
            Bottom::Whole(below) => below.least(n),
            Bottom::Timetable(below) => below.least(n),
        }
    }
}

impl Supply for Named {
    ghost meaning = { named };

    ghost counts = { λ s. (named_lawful s).counts };

    ghost windows = { λ s. (named_lawful s).windows };

    ghost attained = { λ s. (named_lawful s).attained };

    fn phases(&self) -> u32 {
        match self {
            Named::Plain(below) => below.phases(),
            Named::Shared(below) => below.phases(),
        }
    }

    fn count(&self, phase: u32, n: u16) -> u16 {
        match self {
            Named::Plain(below) => below.count(phase, n),
            Named::Shared(below) => below.count(phase, n),
        }
    }

    fn least(&self, n: u16) -> (u16, u32) {
        match self {
            Named::Plain(below) => below.least(n),
            Named::Shared(below) => below.least(n),
        }
    }
}
