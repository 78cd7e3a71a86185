// The slots of a run, one after another.
ghost use Rattle.std.specs.Prelude.{◌≡◌, suc, ◌<◌, ◌≤◌, length, IfSome};
ghost use Rattle.edf.specs.Run.{Runs};
ghost use Rattle.lines.specs.Of.{rows_of};
ghost use Rattle.run.specs.Outcomes.{outcome, ending};
ghost use Rattle.run.specs.Holding.{Cursor, Admits};
ghost use Rattle.run.specs.Listed.{jobs_of, line_of};
ghost use Rattle.run.specs.Slots.{given_in, entry_for, schedule, Entries};
ghost use Rattle.run.specs.Timed.{timed};

use crate::checked::Checked;
use crate::job::Job;
use crate::outcome::Outcome;
use crate::ready::{Rank, Ready};
use crate::table::Table;
use supply::Supply;

// The entry of a slot that is given and idle. (Where a job runs it is 1 + the job's place. C code lends the slots, so they are
// plain numbers.)
const IDLE: u16 = 0;

// The entry of a slot that is not given, and of every slot behind the end of a run.
pub const NOT_GIVEN: u16 = 65_535;

// The entry of a given slot that serves the job at a place, or none.
fn entry_for(served: Option<u16>) -> u16
    requires { IfSome served (λ place. place < 65535) }
    ensures { result ≡ entry_for served }
{
    served.map_or(IDLE, |place| 1 + place)
}

impl Checked<'_> {
    // The deadline of a job.
    fn deadline_of(&self, job: Job) -> u16
        requires { (timed (rows_of self.now.lines.now) job).deadline ≤ 65535 }
        ensures { result ≡ (timed (rows_of self.now.lines.now) job).deadline }
    {
        let line = self.lines.get(usize::from(job.line));
        job.release + line.map_or(0, |line| line.row().deadline)
    }

    // Puts the jobs that are released by an instant into the ready table, from a place on, and answers the place behind them.
    fn admit(&self, table: &mut Table, from: usize, at: u16) -> usize
        requires { Cursor (jobs_of self.now) at at from }
        ensures place { Cursor (jobs_of self.now) at (suc at) result }
        ensures table { Admits (jobs_of self.now) (line_of self.now) at from table.old.jobs result table.new.jobs }
    {
        for (ahead, job) in self.jobs[from..].iter().enumerate() {
            let place = from + ahead;
            if job.release > at {
                return place;
            }
            let rank = Rank {
                deadline: self.deadline_of(*job),
                place: place as u16,
            };
            let left = job.cost;
            table.put(usize::from(job.line), Ready { rank, left });
        }
        self.jobs.len()
    }

    // Serves each given slot up to the largest deadline by earliest deadline first, and stops at the first miss.
    pub(crate) fn follow<S: Supply>(&self, supply: &S, phase: u32, slots: &mut [u16]) -> Outcome
        requires { self.now.last_deadline ≤ length slots.old }
        ensures runs { Runs (given_in (S.meaning supply.now) phase) (jobs_of self.now) self.now.last_deadline (schedule slots.new) (outcome result) }
        ensures entries { Entries (given_in (S.meaning supply.now) phase) slots.new (ending self.now.last_deadline result) }
    {
        slots.fill(NOT_GIVEN);
        let mut table = Table::none();
        let mut next = 0;
        let mut before = 0;
        for s in 0..self.last_deadline {
            next = self.admit(&mut table, next, s);
            let after = supply.count(phase, s + 1);
            if after > before {
                slots[usize::from(s)] = entry_for(table.serve());
            }
            before = after;
            if let Some(job) = table.overdue(s + 1) {
                return Outcome::Missed { job, at: s + 1 };
            }
        }
        Outcome::Met
    }
}
