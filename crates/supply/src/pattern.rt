ghost use Rattle.std.specs.Prelude.{◌≡◌, ◌%◌, ◌<◌, MatchOption};
ghost use Rattle.supply.specs.Row.{from};
ghost use Rattle.supply.specs.Share.{LawfulPattern, pattern, sure};

// The pattern of a share: of each `of` slots, the first `given` are taken.
#[derive(Clone, Copy, PartialEq, Eq)]
pub struct Pattern {
    given: u8,
    of: u8,
    ghost lawful: { LawfulPattern given of },
}

impl Pattern {
    // The pattern of two numbers, if they make one.
    pub(crate) fn new(given: u8, of: u8) -> Option<Pattern>
        ensures { MatchOption result (LawfulPattern given of → ⊥) (λ p. (p.given ≡ given) × (p.of ≡ of)) }
    {
        if given < 1 || of < given || of > 64 {
            return None;
        }
        Some(Pattern { given, of })
    }

    // The number of slots of a turn.
    pub(crate) fn turn(&self) -> u32
        ensures { result ≡ self.now.of }
    {
        u32::from(self.of)
    }

    // How many of the first x slots from the turn's start on are taken.
    fn taken_before(&self, x: u32) -> u32
        ensures { result ≡ from (pattern self.now.given self.now.of) 0 x }
    {
        let turn = u32::from(self.of);
        let given = u32::from(self.given);
        x / turn * given + (x % turn).min(given)
    }

    // How many of x slots are taken, from a slot of the first turn on. A timetable counts its given slots so, too: one line each,
    // and a trait over it is longer than the two.
    pub(crate) fn taken_from(&self, start: u32, x: u16) -> u16
        requires { start < self.now.of }
        ensures { result ≡ from (pattern self.now.given self.now.of) start x }
    {
        (self.taken_before(start + u32::from(x)) - self.taken_before(start)) as u16
    }

    // How many of any x slots in a row are sure to be taken.
    pub(crate) fn sure_of(&self, x: u16) -> u16
        ensures { result ≡ sure self.now.given self.now.of x }
    {
        let turn = u16::from(self.of);
        let given = u16::from(self.given);
        x / turn * given + (x % turn).saturating_sub(turn - given)
    }

    // The slot of the turn from which on no more are taken than is sure.
    pub(crate) fn worst_start(&self) -> u32
        ensures { result ≡ self.now.given % self.now.of }
    {
        u32::from(self.given % self.of)
    }
}
