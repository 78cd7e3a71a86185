use crate::explanation::reasoning::Reasoning;
use lines::Line;
use roster::Roster;
use std::fmt;
use supply::Supply;

// A deadline that is watched: what each line asks for there, and what is given.
#[derive(Drop)]
pub(crate) struct Watched<'a, S> {
    pub(crate) roster: &'a Roster<S>,
    pub(crate) at: u16,
}

impl<'a, S: Supply> Reasoning for Watched<'a, S> {
    fn open<W: fmt::Write>(&self, f: &mut fmt::Formatter<W>) -> fmt::Result {
        let rest = self.roster.lines().first_rest();
        write!(
            f,
            "it is watched: it is not beyond the first rest point {rest}, and was not cut\n"
        )
    }

    // What the line asks for.
    fn line<W: fmt::Write>(&self, f: &mut fmt::Formatter<W>, line: Line) -> fmt::Result {
        let count = line.count(self.at);
        let cost = line.row().cost;
        let work = line.work(count);
        write!(f, ": count {count} x cost {cost} = {work}\n")
    }

    fn close<W: fmt::Write>(&self, f: &mut fmt::Formatter<W>) -> fmt::Result {
        let demand = self.roster.lines().demand(self.at);
        let (given, _) = self.roster.supply().least(self.at);
        let more = if demand > u32::from(given) {
            "more"
        } else {
            "no more"
        };
        write!(
            f,
            "demand {demand} of {given}: {more} than the supply is sure to give\n"
        )
    }
}
