// Why a command has no answer of its own.
ghost use Rattle.std.specs.Prelude.{◌≡◌};
ghost use Rattle.commands.specs.declared.trouble.Trouble.TheVariants.{Refused, Sheet, Memory};

use crate::usage::Usage;
use refusal::Refusal;
use sheet::SheetRefusal;
use std::alloc::{AllocError, AllocFailed};
use supply::ShareRefused;

#[derive(Drop)]
pub enum Trouble {
    // The words are wrong: what to type instead.
    Usage(Usage),
    // The library refused.
    Refused(Refusal),
    // A sheet was refused.
    Sheet(SheetRefusal),
    // There is no memory left.
    Memory,
}

impl From<Refusal> for Trouble {
    ghost from_gives = { λ refusal trouble. trouble ≡ Refused refusal };

    fn from(refusal: Refusal) -> Trouble {
        Trouble::Refused(refusal)
    }
}

impl<B: Drop> From<ShareRefused<B>> for Trouble {
    ghost from_gives = { λ back trouble. trouble ≡ Refused back.refusal };

    fn from(back: ShareRefused<B>) -> Trouble {
        Trouble::Refused(Refusal::from(back))
    }
}

impl From<SheetRefusal> for Trouble {
    ghost from_gives = { λ refusal trouble. trouble ≡ Sheet refusal };

    fn from(refusal: SheetRefusal) -> Trouble {
        Trouble::Sheet(refusal)
    }
}

impl From<AllocError> for Trouble {
    ghost from_gives = { λ _ trouble. trouble ≡ Memory };

    fn from(_: AllocError) -> Trouble {
        Trouble::Memory
    }
}

impl<T: Drop> From<AllocFailed<T>> for Trouble {
    ghost from_gives = { λ _ trouble. trouble ≡ Memory };

    fn from(_: AllocFailed<T>) -> Trouble {
        Trouble::Memory
    }
}
