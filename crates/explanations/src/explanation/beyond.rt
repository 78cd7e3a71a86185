use crate::explanation::reasoning::Reasoning;
use lines::Line;
use roster::Roster;
use std::fmt;
use supply::Supply;

// A deadline beyond the first rest point: demand splits there, and what is given adds up.
#[derive(Drop)]
pub(crate) struct Beyond<'a, S> {
    supply: &'a S,
    at: u16,
    rest: u16,
    // What is left of the instant behind the rest point.
    left: u16,
}

// What comes by the rest point and by what is left behind it, and the sum of both.
#[derive(Drop)]
struct Sum {
    name: &'static str,
    parts: [u16; 2],
    figures: [u16; 2],
}

impl fmt::Display for Sum {
    fn fmt<W: fmt::Write>(&self, f: &mut fmt::Formatter<W>) -> fmt::Result {
        let name = self.name;
        let [rest, left] = self.parts;
        let [before, behind] = self.figures;
        let sum = u32::from(before) + u32::from(behind);
        write!(
            f,
            "{name}({rest}) + {name}({left}) = {before} + {behind} = {sum}"
        )
    }
}

impl<'a, S: Supply> Beyond<'a, S> {
    // An instant that is split at the first rest point.
    pub(crate) fn new(roster: &'a Roster<S>, at: u16) -> Beyond<'a, S> {
        let rest = roster.lines().first_rest();
        Beyond {
            supply: roster.supply(),
            at,
            rest,
            left: at.saturating_sub(rest),
        }
    }

    // A figure by both parts of the instant.
    fn sum(&self, name: &'static str, figures: [u16; 2]) -> Sum {
        Sum {
            name,
            parts: [self.rest, self.left],
            figures,
        }
    }
}

impl<'a, S: Supply> Reasoning for Beyond<'a, S> {
    fn open<W: fmt::Write>(&self, f: &mut fmt::Formatter<W>) -> fmt::Result {
        let rest = self.rest;
        write!(
            f,
            "it is not watched: it lies beyond the first rest point {rest}, across which no job lies\n"
        )
    }

    // The jobs of the line that are due by the instant, beside those due by both parts of it.
    fn line<W: fmt::Write>(&self, f: &mut fmt::Formatter<W>, line: Line) -> fmt::Result {
        let at = self.at;
        let whole = line.count(at);
        let sum = self.sum("count", [line.count(self.rest), line.count(self.left)]);
        write!(f, ": count({at}) = {whole} <= {sum}\n")
    }

    // What the supply is sure to give by both parts of the instant, beside the same by the whole of it, and what follows.
    fn close<W: fmt::Write>(&self, f: &mut fmt::Formatter<W>) -> fmt::Result {
        let Beyond {
            supply,
            at,
            rest,
            left,
        } = *self;
        let (whole, _) = supply.least(at);
        let (before, _) = supply.least(rest);
        let (behind, _) = supply.least(left);
        let sum = self.sum("least", [before, behind]);
        write!(f, "supply: {sum} <= least({at}) = {whole}\n")?;
        write!(
            f,
            "so demand is within least at {at} if it is at {rest} and at {left}\n"
        )?;
        if left > rest {
            write!(
                f,
                "{left} lies beyond {rest}, too, and is split the same way\n"
            )
        } else {
            write!(
                f,
                "neither lies beyond {rest}, so the watched deadlines decide\n"
            )
        }
    }
}
