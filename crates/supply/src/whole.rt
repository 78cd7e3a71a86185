ghost use Rattle.supply.specs.Whole.{whole};
ghost use Rattle.std.proofs.Common.{rules};

use crate::supply::Supply;

// The whole processor: one phase, and every slot is given.
#[derive(Clone, Copy, PartialEq, Eq)]
pub struct Whole;

impl Supply for Whole {
    ghost meaning = { λ _. whole };

    ghost counts = { Prim.search rules };

    ghost windows = { Prim.search rules };

    ghost attained = { Prim.search rules };

    fn phases(&self) -> u32 {
        1
    }

    fn count(&self, _phase: u32, n: u16) -> u16 {
        n
    }

    fn least(&self, n: u16) -> (u16, u32) {
        (n, 0)
    }
}
