ghost use Rattle.lines.specs.Calls.{line_checks};
ghost use Rattle.lines.specs.Demand.{Lawful, count, work};
ghost use Rattle.lines.specs.Rest.{deadline_after, resting};
ghost use Rattle.refusal.specs.Answers.{Answered};
ghost use Rattle.std.specs.Prelude.{◌≡◌, ℕ, ◌<◌, ◌≤◌, true, false, MatchOption};

use crate::line::Line;
use crate::row::Row;
use refusal::{Layer, Reason, Refusal};

impl Line {
    // The line of a row, if the row's figures are lawful.
    pub fn new(row: Row) -> Result<Line, Refusal>
        ensures made_or_refused_by_checks { Answered result (line_checks row) (λ line. line.row ≡ row) }
    {
        if row.period < 1 || row.period > 1000 {
            return Err(Refusal::by(Layer::Roster, Reason::PeriodOutOfRange));
        }
        if row.deadline < 1 || row.deadline > row.period {
            return Err(Refusal::by(Layer::Roster, Reason::DeadlineOutOfRange));
        }
        if row.cost < 1 || row.cost > 1000 {
            return Err(Refusal::by(Layer::Roster, Reason::CostOutOfRange));
        }
        Ok(Line { row })
    }

    // The line's figures.
    pub fn row(&self) -> Row
        ensures figures_it_was_made_from { result ≡ self.now.row }
    {
        self.row
    }

    // How many jobs of the line fall due by t, if one comes at 0 and then one in each period.
    pub fn count(&self, t: u16) -> u16
        ensures counts_jobs_due { result ≡ count self.now.row t }
    {
        if t < self.row.deadline {
            return 0;
        }
        (t - self.row.deadline) / self.row.period + 1
    }

    // The most work that n successive jobs of the line bring.
    pub fn work(&self, n: u16) -> u32
        ensures work_of_so_many_jobs { result ≡ work self.now.row n }
    {
        u32::from(n) * u32::from(self.row.cost)
    }

    // The first deadline of the line after t.
    pub fn deadline_after(&self, t: u16) -> u32
        ensures first_deadline_later { result ≡ deadline_after self.now.row t }
    {
        u32::from(self.count(t)) * u32::from(self.row.period) + u32::from(self.row.deadline)
    }

    // Where the line does not rest at t: the next instant at which it does.
    pub(crate) fn next_rest(&self, t: u16) -> Option<u16>
        requires { t ≤ 30000 }
        ensures { MatchOption result (resting t self.now.row ≡ true) (λ u. (t < u) × ((k : ℕ) → t ≤ k → k < u → resting k self.now.row ≡ false)) }
    {
        let past = t % self.row.period;
        if past != 0 && past < self.row.deadline {
            Some(t - past + self.row.deadline)
        } else {
            None
        }
    }

    // The line of a lawful row.
    pub(crate) fn of(row: Row) -> Line
        requires { Lawful row }
        ensures { result.row ≡ row }
    {
        Line { row }
    }
}
