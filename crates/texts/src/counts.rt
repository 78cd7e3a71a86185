ghost use Rattle.lines.specs.Of.{rows_of};
ghost use Rattle.std.specs.Prelude.{Some};
ghost use Rattle.texts.specs.Surveys.{counts_text};

use lines::Lines;
use std::fmt;

// The count of each line at an instant, a blank before each.
#[derive(Drop)]
pub struct Counts<'a> {
    pub lines: &'a Lines,
    pub at: u16,
}

impl<'a> fmt::Display for Counts<'a> {
    ghost output = { λ counts. Some (counts_text counts.at (rows_of counts.lines.now)) };

    fn fmt<W: fmt::Write>(&self, f: &mut fmt::Formatter<W>) -> fmt::Result {
        for line in self.lines.iter() {
            let count = line.count(self.at);
            write!(f, " {count}")?;
        }
        Ok(())
    }
}
