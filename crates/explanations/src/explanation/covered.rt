use crate::certificate::Certificate;
use crate::explanation::reasoning::Reasoning;
use lines::Line;
use roster::{Cite, Roster};
use std::fmt;
use supply::Supply;

// A deadline that was cut: the sums of its certificate.
#[derive(Drop)]
pub(crate) struct Covered<'a, S> {
    pub(crate) roster: &'a Roster<S>,
    pub(crate) certificate: &'a Certificate,
}

// What grows with an instant: the jobs of a line that are due by it, or the slots that a supply is sure to give by it.
#[derive(Drop)]
enum Figure<'a, S> {
    Count(Line),
    Least(&'a S),
}

impl<'a, S: Supply> Figure<'a, S> {
    fn at(&self, instant: u16) -> u16 {
        match self {
            Figure::Count(line) => line.count(instant),
            Figure::Least(supply) => supply.least(instant).0,
        }
    }
}

// The divisor times the figure at the deadline.
#[derive(Drop)]
struct Times<'a> {
    certificate: &'a Certificate,
    name: &'static str,
    figure: u16,
}

impl<'a> fmt::Display for Times<'a> {
    fn fmt<W: fmt::Write>(&self, f: &mut fmt::Formatter<W>) -> fmt::Result {
        let Times { name, figure, .. } = *self;
        let q = self.certificate.divisor;
        let d = self.certificate.deadline;
        let times = u64::from(q) * u64::from(figure);
        write!(f, "{q} x {name}({d}) = {q} x {figure} = {times}")
    }
}

// The figures at the cites, weighed, and their sum.
#[derive(Drop)]
struct Weighed<'a, S> {
    certificate: &'a Certificate,
    figure: Figure<'a, S>,
}

impl<'a, S: Supply> fmt::Display for Weighed<'a, S> {
    fn fmt<W: fmt::Write>(&self, f: &mut fmt::Formatter<W>) -> fmt::Result {
        let mut sign = "";
        let mut sum = 0u64;
        for cite in self.certificate.cites.as_slice() {
            let weight = cite.weight;
            let figure = self.figure.at(cite.deadline);
            write!(f, "{sign}{weight} x {figure}")?;
            sum = sum.saturating_add(u64::from(weight) * u64::from(figure));
            sign = " + ";
        }
        write!(f, " = {sum}")
    }
}

impl<'a, S: Supply> Covered<'a, S> {
    // Names the cites that were cut themselves, later.
    fn cut_later<W: fmt::Write>(&self, f: &mut fmt::Formatter<W>) -> fmt::Result {
        for cite in self.certificate.cites.as_slice() {
            let d = cite.deadline;
            if !self.roster.watched().contains(d) {
                write!(f, "{d} was cut later: explain {d} shows by what\n")?;
            }
        }
        Ok(())
    }
}

impl<'a, S: Supply> Reasoning for Covered<'a, S> {
    // What was cut by what.
    fn open<W: fmt::Write>(&self, f: &mut fmt::Formatter<W>) -> fmt::Result {
        let divisor = self.certificate.divisor;
        write!(f, "it is not watched: it was cut with divisor {divisor} by")?;
        let mut sign = "";
        for cite in self.certificate.cites.as_slice() {
            let Cite { deadline, weight } = *cite;
            write!(f, "{sign} {deadline} of weight {weight}")?;
            sign = ",";
        }
        f.write_str("\n")
    }

    // The divisor times the count at the deadline, beside the weighed counts at the cites.
    fn line<W: fmt::Write>(&self, f: &mut fmt::Formatter<W>, line: Line) -> fmt::Result {
        let certificate = self.certificate;
        let times = Times {
            certificate,
            name: "count",
            figure: line.count(certificate.deadline),
        };
        let weighed: Weighed<S> = Weighed {
            certificate,
            figure: Figure::Count(line),
        };
        write!(f, ": {times} <= {weighed}\n")
    }

    // What the supply is sure to give by the cites, weighed, beside the divisor times the same by the deadline, and what follows.
    fn close<W: fmt::Write>(&self, f: &mut fmt::Formatter<W>) -> fmt::Result {
        let certificate = self.certificate;
        let supply = self.roster.supply();
        let d = certificate.deadline;
        let (figure, _) = supply.least(d);
        let times = Times {
            certificate,
            name: "least",
            figure,
        };
        let weighed = Weighed {
            certificate,
            figure: Figure::Least(supply),
        };
        write!(
            f,
            "supply: {weighed} <= {times}\nso demand is within least at {d} if it is at each of these, whatever the costs\n"
        )?;
        self.cut_later(f)
    }
}
