ghost use Rattle.lines.specs.Demand.{AllLawful};

mod methods;

use crate::row::Row;

// The lines of lawful rows, one after another: each is made from its row.
#[derive(Clone, Copy)]
pub struct LineIter<'a> {
    rows: &'a [Row],
    ghost lawful: { AllLawful rows.now },
}
