ghost use Rattle.std.specs.Prelude.{◌≤◌, length};
ghost use Rattle.lines.specs.Demand.{AllLawful};
ghost use Rattle.lines.specs.Rest.{hyperperiod, full_list};

mod methods;

use crate::row::Row;
use short_list::ShortList;

// Up to 8 lawful lines, numbered from 0, as a table of plain rows; their hyperperiod is at most 30,000
// and at most 256 deadlines come up to their first rest point.
#[derive(Clone, Copy)]
pub struct Lines {
    rows: ShortList<Row, 8>,
    ghost within: { length rows.items ≤ 8 },
    ghost lawful: { AllLawful rows.items },
    ghost brief: { hyperperiod rows.items ≤ 30000 },
    ghost few: { length (full_list rows.items) ≤ 256 },
}
