ghost use Rattle.lines.specs.Demand.{AllLawful};
ghost use Rattle.lines.specs.Left.{rows_left};
ghost use Rattle.std.specs.Iterator.{YieldsFirstBy, item_count};
ghost use Rattle.std.specs.Prelude.{◌≡◌};

use crate::line::Line;
use crate::line_iter::LineIter;
use crate::row::Row;

impl<'a> LineIter<'a> {
    // The lines of some rows.
    pub(crate) fn over(rows: &'a [Row]) -> LineIter<'a>
        requires { AllLawful rows.now }
        ensures { rows_left result ≡ rows.now }
    {
        LineIter { rows }
    }
}

impl<'a> Iterator for LineIter<'a> {
    type Item = Line;

    ghost next_gives = { YieldsFirstBy (λ line. line.row) rows_left };

    ghost remaining = { item_count rows_left };

    fn next(&mut self) -> Option<Line> {
        let (first, others) = self.rows.split_first()?;
        // Field by field: a row that is copied whole is loaded as one number, and taken apart again for each figure.
        let Row {
            period,
            deadline,
            cost,
        } = *first;
        let line = Line::of(Row {
            period,
            deadline,
            cost,
        });
        self.rows = others;
        Some(line)
    }
}
