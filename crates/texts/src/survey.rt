ghost use Rattle.lines.specs.Of.{rows_of};
ghost use Rattle.std.specs.Fmt.{WritesOnOk};
ghost use Rattle.std.specs.Prelude.{Some};
ghost use Rattle.texts.specs.Surveys.{instant_text, survey_text};

use crate::counts::Counts;
use lines::Lines;
use std::fmt;
use supply::Supply;

// What some lines ask of a supply: where they rest, which deadlines are watched, and at each the counts and the demand.
#[derive(Drop)]
pub struct Survey<'a, S> {
    pub supply: &'a S,
    pub lines: &'a Lines,
    pub watched: &'a [u16],
}

impl<'a, S: Supply> Survey<'a, S> {
    // What is asked for by an instant, and what is given.
    fn row<W: fmt::Write>(&self, f: &mut fmt::Formatter<W>, at: u16) -> fmt::Result
        ensures { WritesOnOk W.write_str_gives f.old result (instant_text (S.meaning self.now.supply.now) (rows_of self.now.lines.now) at) f.new }
    {
        let counts = Counts {
            lines: self.lines,
            at,
        };
        let demand = self.lines.demand(at);
        let (given, _) = self.supply.least(at);
        write!(f, "at {at} counts{counts} demand {demand} of {given}\n")
    }
}

impl<'a, S: Supply> fmt::Display for Survey<'a, S> {
    ghost output = { λ survey. Some (survey_text (S.meaning survey.supply.now) (rows_of survey.lines.now) survey.watched.now) };

    fn fmt<W: fmt::Write>(&self, f: &mut fmt::Formatter<W>) -> fmt::Result {
        let rest = self.lines.first_rest();
        let many = self.watched.len();
        write!(f, "rest {rest}\nwatched {many}\n")?;
        for deadline in self.watched {
            self.row(f, *deadline)?;
        }
        Ok(())
    }
}
