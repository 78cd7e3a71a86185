use std::fmt;
use std::ops::Range;

// The ticks of a full width and of the instant behind it: a bar for every tenth instant, a cross for every fifth between them.
const TICKS: &str = "|----+----|----+----|----+----|----+----|----+----|----+----|";

// The ruler over the rows: every tenth instant of some columns by its number, and below them a tick for each.
pub(crate) fn ruler<W: fmt::Write>(
    f: &mut fmt::Formatter<W>,
    columns: &Range<usize>,
) -> fmt::Result {
    f.write_str("slot    ")?;
    for at in (columns.start..columns.end).step_by(10) {
        // No blanks stand behind the last.
        let is_last = at.saturating_add(10) >= columns.end;
        let width = if is_last { 0 } else { 10 };
        write!(f, "{at:<width$}")?;
    }
    let many = columns.end.saturating_sub(columns.start);
    write!(f, "\n        {TICKS:.many$}\n")
}
