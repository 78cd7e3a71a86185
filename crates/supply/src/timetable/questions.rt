ghost use Rattle.std.specs.Prelude.{◌≡◌, ◌<◌};
ghost use Rattle.supply.specs.Row.{from};
ghost use Rattle.supply.specs.Timetable.{bits, timetable};
ghost use Rattle.supply.specs.Rows.{timetable_laws};

use crate::supply::Supply;
use crate::timetable::Timetable;

impl Timetable {
    // How many of the first x slots from the row's start on are given: whole turns by the ones of the word, the slots left over by
    // those of its lowest bits.
    fn given_before(&self, x: u32) -> u32
        ensures { result ≡ from (bits self.now.length self.now.word) 0 x }
    {
        let turn = u32::from(self.length);
        let left_over = self.word & ((1 << (x % turn)) - 1);
        x / turn * self.word.count_ones() + left_over.count_ones()
    }

    // How many of the n slots from a slot on are given.
    fn given_from(&self, start: u8, n: u16) -> u16
        ensures { result ≡ from (bits self.now.length self.now.word) start n }
    {
        let start = u32::from(start);
        (self.given_before(start + u32::from(n)) - self.given_before(start)) as u16
    }
}

impl Supply for Timetable {
    ghost meaning = { λ t. timetable t.length t.word };

    ghost counts = { λ t. (timetable_laws t.length t.word t.lawful).counts };

    ghost windows = { λ t. (timetable_laws t.length t.word t.lawful).windows };

    ghost attained = { λ t. (timetable_laws t.length t.word t.lawful).attained };

    fn phases(&self) -> u32 {
        u32::from(self.length)
    }

    fn count(&self, phase: u32, n: u16) -> u16 {
        self.given_from((phase % self.phases()) as u8, n)
    }

    fn least(&self, n: u16) -> (u16, u32) {
        (1..self.length)
            .map(|phase| (self.given_from(phase, n), u32::from(phase)))
            .fold((self.given_from(0, n), 0), |worst, next| {
                if next.0 < worst.0 { next } else { worst }
            })
    }
}
