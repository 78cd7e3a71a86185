use lines::{Line, Lines};
use std::fmt;

// One of the ways to explain: what stands above the lines, what is said of each, and what follows.
pub(crate) trait Reasoning {
    // Whether the instant is watched, and why.
    fn open<W: fmt::Write>(&self, f: &mut fmt::Formatter<W>) -> fmt::Result;

    // What is said of a line, behind its number.
    fn line<W: fmt::Write>(&self, f: &mut fmt::Formatter<W>, line: Line) -> fmt::Result;

    // What follows from all lines.
    fn close<W: fmt::Write>(&self, f: &mut fmt::Formatter<W>) -> fmt::Result;
}

// The whole of it.
pub(crate) fn explain<R: Reasoning, W: fmt::Write>(
    f: &mut fmt::Formatter<W>,
    lines: &Lines,
    reasoning: &R,
) -> fmt::Result {
    reasoning.open(f)?;
    for (number, line) in lines.iter().enumerate() {
        write!(f, "line {number}")?;
        reasoning.line(f, line)?;
    }
    reasoning.close(f)
}
