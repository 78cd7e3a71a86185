// The deadlines of lines in rising order, by the next one of each line.
ghost use Rattle.std.specs.Prelude.{◌≡◌, ◌<◌, length, MatchOption};
ghost use Rattle.lines.specs.Of.{watched};
ghost use Rattle.lines.specs.Rest.{Next, deadlines};
ghost use Rattle.lines.specs.Left.{rows_left};

use crate::line_iter::LineIter;
use crate::watch_list::WatchList;

// The first deadline after an instant and up to an end, if there is one.
pub(crate) fn next_deadline(lines: LineIter<'_>, after: u16, end: u16) -> Option<u16>
    ensures { Next (rows_left lines.entry) after «end» result }
{
    let past = u32::from(end) + 1;
    let first = lines
        .map(|line| line.deadline_after(after))
        .fold(past, |first, d| first.min(d));
    u16::try_from(first).ok().filter(|d| *d <= end)
}

// Every deadline up to an end, unless there are more than 256.
pub(crate) fn deadlines_to(lines: LineIter<'_>, end: u16) -> Option<WatchList>
    ensures { MatchOption result (256 < length (deadlines (rows_left lines.entry) «end»)) (λ w. watched w ≡ deadlines (rows_left lines.entry) «end») }
{
    let mut list = WatchList::none();
    let mut at = 0;
    // A loop: each step starts at the last answer, and `successors` would say that in no fewer words.
    while let Some(d) = next_deadline(lines, at, end) {
        list.push(d).ok()?;
        at = d;
    }
    Some(list)
}
