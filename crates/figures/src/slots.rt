// A supply played slot by slot: a row of slots that repeats for ever, and two shares over it, one over the other. (One slot of each
// is no share, so that a row alone needs no kind of its own.)
use trial_tools::next_place;

// A share: so many slots are taken of each turn. The place is where in its turn it stands.
#[derive(Clone, Copy)]
pub(crate) struct Part {
    pub(crate) taken: u8,
    pub(crate) turn: u8,
    pub(crate) place: u8,
}

impl Part {
    // Whether the next slot that is given below is taken.
    fn takes(&mut self) -> bool {
        let taken = self.place < self.taken;
        self.place = next_place(self.place, self.turn);
        taken
    }

    // The first place of a turn that is not taken, or the first of all where each is.
    fn after_taken(self) -> u32 {
        if self.taken < self.turn {
            u32::from(self.taken)
        } else {
            0
        }
    }
}

// A row, of which slot s is given where the bit worth 2^s of a word is 1, the place where in it the supply stands, and the shares.
#[derive(Clone, Copy)]
pub(crate) struct Slots {
    pub(crate) length: u8,
    pub(crate) word: u64,
    pub(crate) place: u8,
    pub(crate) inner: Part,
    pub(crate) outer: Part,
}

// A supply at its first slot: its length and word, and its shares.
macro_rules! slots {
    ($length:expr, $word:expr) => {
        slots!($length, $word, 1 in 1, 1 in 1)
    };
    ($length:expr, $word:expr, $taken:literal in $turn:literal, $outer_taken:literal in $outer_turn:literal) => {
        crate::slots::Slots {
            length: $length,
            word: $word,
            place: 0,
            inner: crate::slots::Part {
                taken: $taken,
                turn: $turn,
                place: 0,
            },
            outer: crate::slots::Part {
                taken: $outer_taken,
                turn: $outer_turn,
                place: 0,
            },
        }
    };
}

pub(crate) use slots;

impl Slots {
    // Whether the next slot is given.
    fn next_given(&mut self) -> bool {
        let bits = self.word.checked_shr(u32::from(self.place)).unwrap_or(0);
        self.place = next_place(self.place, self.length);
        bits % 2 == 1 && self.inner.takes() && self.outer.takes()
    }

    // How many of the next n slots are given.
    pub(crate) fn given(mut self, n: u16) -> u16 {
        let mut given = 0u16;
        for _ in 0..n {
            given = given.saturating_add(u16::from(self.next_given()));
        }
        given
    }

    // The first place of the row, without the shares, from which n slots hold the fewest given ones.
    fn worst_place(self, n: u16) -> u8 {
        let mut row = slots!(self.length, self.word);
        let mut worst = (u16::MAX, 0);
        for place in 0..self.length {
            row.place = place;
            worst = worst.min((row.given(n), place));
        }
        worst.1
    }

    // The phase to be answered with the least: the worst place of the row, and of each share the first place that is not taken.
    pub(crate) fn worst_phase(self, n: u16) -> u32 {
        let turn = u32::from(self.inner.turn);
        let outer = turn.wrapping_mul(self.outer.after_taken());
        let shares = outer.wrapping_add(self.inner.after_taken());
        let length = u32::from(self.length);
        length
            .wrapping_mul(shares)
            .wrapping_add(u32::from(self.worst_place(n)))
    }
}
