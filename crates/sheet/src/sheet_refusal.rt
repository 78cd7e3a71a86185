ghost use Rattle.sheet.specs.Reading.{refused_at};
ghost use Rattle.std.specs.Prelude.{◌≡◌};

use refusal::Refusal;

// Why a sheet is turned down, and where: the record, from 1, and the byte at which it begins, from 0. (Where it is about no
// record both are 0, as the report and C code have them, and no None.)
#[derive(Clone, Copy, PartialEq, Eq)]
pub struct SheetRefusal {
    pub refusal: Refusal,
    pub record: u32,
    pub byte: u32,
}

impl SheetRefusal {
    // The refusal of the record with a number, which begins at a byte.
    pub(crate) fn at(refusal: Refusal, number: u32, byte: u32) -> SheetRefusal
        ensures { result ≡ refused_at refusal number byte }
    {
        SheetRefusal {
            refusal,
            record: number,
            byte,
        }
    }
}

// A refusal that names no record: it is not about a place in the sheet.
impl From<Refusal> for SheetRefusal {
    ghost from_gives = { λ why e. e ≡ refused_at why 0 0 };

    fn from(refusal: Refusal) -> SheetRefusal {
        SheetRefusal::at(refusal, 0, 0)
    }
}
