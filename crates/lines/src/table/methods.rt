ghost use Rattle.std.specs.Prelude.{◌≡◌, ◌<◌, ◌≤◌, [], ◌∷◌, ◌++◌, length, MatchOption, slice_index_or};
ghost use Rattle.lines.specs.Calls.{add_checks, set_checks};
ghost use Rattle.lines.specs.Changes.{recost_checks, with_cost};
ghost use Rattle.lines.specs.Demand.{AllLawful, no_row, demand};
ghost use Rattle.lines.specs.Left.{rows_left};
ghost use Rattle.lines.specs.Of.{rows_of, watched};
ghost use Rattle.lines.specs.Rest.{Next, hyperperiod, first_rest, full_list};
ghost use Rattle.refusal.specs.Answers.{Answered, left};
ghost use Rattle.std.specs.List.{remove};

use crate::deadlines::{deadlines_to, next_deadline};
use crate::line::Line;
use crate::line_iter::LineIter;
use crate::rest::{first_rest_of, hyperperiod_of};
use crate::row::Row;
use crate::table::Lines;
use crate::watch_list::WatchList;
use refusal::{Layer, Reason, Refusal};
use short_list::ShortList;

const NO_ROW: Row = Row {
    period: 0,
    deadline: 0,
    cost: 0,
};

// The lines of lawful rows and their full watch list, if they can be taken together.
fn checked(rows: ShortList<Row, 8>) -> Result<(Lines, WatchList), Refusal>
    requires { AllLawful rows.items }
    ensures { Answered result (set_checks rows.items) (λ made. (rows_of made.0 ≡ rows.items) × (watched made.1 ≡ full_list rows.items)) }
{
    let lines = LineIter::over(rows.as_slice());
    hyperperiod_of(lines).ok_or(Refusal::by(Layer::Roster, Reason::HyperperiodTooLong))?;
    let list = deadlines_to(lines, first_rest_of(lines)).ok_or(Refusal::by(
        Layer::Roster,
        Reason::WatchListTooLong,
    ))?;
    Ok((Lines { rows }, list))
}

impl Lines {
    // No line.
    pub fn none() -> Lines
        ensures holds_no_line { rows_of result ≡ [] }
    {
        Lines {
            rows: ShortList::none(NO_ROW),
        }
    }

    // How many lines there are.
    pub fn len(&self) -> usize
        ensures counts_lines { result ≡ length (rows_of self.now) }
    {
        self.rows.len()
    }

    // The lines, one after another.
    pub fn iter(&self) -> LineIter<'_>
        ensures walks_lines_in_order { rows_left result ≡ rows_of self.now }
        ensures walks_at_most_8 { length (rows_left result) ≤ 8 }
    {
        LineIter::over(self.rows.as_slice())
    }

    // The line of a number, if there is one.
    pub fn get(&self, number: usize) -> Option<Line>
        ensures line_of_that_number { MatchOption result (length (rows_of self.now) ≤ number) (λ line. (number < length (rows_of self.now)) × (line.row ≡ slice_index_or (rows_of self.now) number no_row)) }
    {
        self.rows.as_slice().get(number).map(|row| Line::of(*row))
    }

    // The lines with one more, which gets the next number, and their full watch list.
    pub fn add(&self, row: Row) -> Result<(Lines, WatchList), Refusal>
        ensures added_last_or_refused_by_checks { Answered result (add_checks (rows_of self.now) row) (λ made. (rows_of made.0 ≡ rows_of self.now ++ (row ∷ [])) × (watched made.1 ≡ full_list (rows_of made.0))) }
    {
        if self.rows.is_full() {
            return Err(Refusal::by(Layer::Roster, Reason::LinesFull));
        }
        let line = Line::new(row)?;
        let mut rows = self.rows;
        rows.push(line.row()).unwrap();
        checked(rows)
    }

    // The lines without one, the later ones numbered one lower, and their full watch list; none where that line is not there.
    pub fn remove(&self, number: usize) -> Option<(Lines, WatchList)>
        ensures gap_closed_or_none_where_absent { MatchOption result (length (rows_of self.now) ≤ number) (λ made. (number < length (rows_of self.now)) × (rows_of made.0 ≡ remove (rows_of self.now) number) × (watched made.1 ≡ full_list (rows_of made.0))) }
    {
        let mut rows = self.rows;
        rows.remove(number)?;
        let rest = Lines { rows };
        Some((rest, rest.full_list()))
    }

    // The line of a number gets a new cost: its row is replaced whole, and the others stay.
    pub fn recost(&mut self, number: u8, cost: u16) -> Result<(), Refusal>
        ensures refused_by_checks { Answered result (recost_checks (rows_of self.old) number cost) (λ _. Unit {0}) }
        ensures that_cost_alone_changes { rows_of self.new ≡ left result (with_cost (rows_of self.old) number cost) (rows_of self.old) }
    {
        let at = usize::from(number);
        let old = self.get(at).ok_or(Refusal::by(Layer::Roster, Reason::NoSuchLine).at(u32::from(
            number,
        )))?;
        let line = Line::new(Row { cost, ..old.row() })?;
        self.rows.replace(at, line.row());
        Ok(())
    }

    // The first deadline of the lines after an instant and up to a last one, if there is one.
    pub fn next_deadline(&self, after: u16, last: u16) -> Option<u16>
        ensures first_deadline_between { Next (rows_of self.now) after last result }
    {
        next_deadline(self.iter(), after, last)
    }

    // What the lines ask for by t.
    pub fn demand(&self, t: u16) -> u32
        ensures sums_work_due { result ≡ demand (rows_of self.now) t }
    {
        self.iter().map(|line| line.work(line.count(t))).sum()
    }

    // The least common multiple of the periods.
    pub fn hyperperiod(&self) -> u16
        ensures least_common_multiple { result ≡ hyperperiod (rows_of self.now) }
    {
        hyperperiod_of(self.iter()).unwrap()
    }

    // The first instant from 1 on at which every line rests.
    pub fn first_rest(&self) -> u16
        ensures first_instant_all_rest { result ≡ first_rest (rows_of self.now) }
    {
        first_rest_of(self.iter())
    }

    // Every deadline up to the first rest point, rising, each once.
    pub fn full_list(&self) -> WatchList
        ensures every_deadline_to_first_rest { watched result ≡ full_list (rows_of self.now) }
    {
        deadlines_to(self.iter(), self.first_rest()).unwrap()
    }
}
