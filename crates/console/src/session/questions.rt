// Commands that ask about the lines of the roster.
use crate::session::Session;
use commands::{Trouble, Usage, figure, only};
use lines::{Line, Row};
use std::alloc::AllocError;
use std::fmt::Write;
use supply::Supply;
use texts::Counts;

// Adds a line of the roster to a text.
fn add(text: &mut String, number: usize, line: Line) -> Result<(), AllocError> {
    let Row {
        period,
        deadline,
        cost,
    } = line.row();
    write!(
        text,
        "line {number} period {period} deadline {deadline} cost {cost}\n"
    )
}

impl Session {
    // The lines, one to a line of text.
    pub(crate) fn lines(&self) -> Result<String, Trouble> {
        let lines = self.roster.lines();
        let many = lines.len();
        let mut text = format!(in self.heap; "lines {many}\n")?;
        for (number, line) in lines.iter().enumerate() {
            add(&mut text, number, line)?;
        }
        Ok(text)
    }

    // The first rest point.
    pub(crate) fn rest(&self) -> Result<String, Trouble> {
        let rest = self.roster.lines().first_rest();
        figure(self.heap, "rest", u32::from(rest))
    }

    // The deadlines that are watched.
    pub(crate) fn watched(&self) -> Result<String, Trouble> {
        let watched = self.roster.watched().as_slice();
        let many = watched.len();
        let mut text = format!(in self.heap; "watched {many}")?;
        let mut before = ": ";
        for d in watched {
            write!(text, "{before}{d}")?;
            before = " ";
        }
        text.push('\n')?;
        Ok(text)
    }

    // The count of each line at an instant.
    pub(crate) fn counts(&self, words: &[&str]) -> Result<String, Trouble> {
        let counts = Counts {
            lines: self.roster.lines(),
            at: only(words, Usage::Counts)?,
        };
        Ok(format!(in self.heap; "counts{counts}\n")?)
    }

    // What the lines ask for by an instant, and what the supply is sure to give.
    pub(crate) fn demand(&self, words: &[&str]) -> Result<String, Trouble> {
        let at = only(words, Usage::Demand)?;
        let demand = self.roster.lines().demand(at);
        let (given, _) = self.roster.supply().least(at);
        Ok(format!(in self.heap; "demand {demand} of {given}\n")?)
    }

    // Whether the lines fit, and where not.
    pub(crate) fn verdict(&self) -> Result<String, Trouble> {
        match self.roster.verdict() {
            None => Ok(String::from_str(self.heap, "fits\n")?),
            Some(t) => figure(self.heap, "overloaded", u32::from(t)),
        }
    }
}
