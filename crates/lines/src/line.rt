ghost use Rattle.lines.specs.Demand.{Lawful};

mod methods;

use crate::row::Row;

// A lawful line: 1 <= deadline <= period <= 1000 and 1 <= cost <= 1000, from its making on.
#[derive(Clone, Copy)]
pub struct Line {
    row: Row,
    ghost lawful: { Lawful row },
}
