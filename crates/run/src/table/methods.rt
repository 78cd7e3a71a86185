ghost use Rattle.std.specs.Prelude.{◌≡◌, ℕ, ◌<◌, ◌≤◌, Some, MatchOption, slice_set};
ghost use Rattle.run.specs.Ready.{Waits, NoneWaits, Foremost, Serves};

use crate::ready::Ready;
use crate::table::Table;

// The foremost of the jobs that wait, behind its line, if one waits.
fn foremost_of(jobs: &[Option<Ready>]) -> Option<(usize, Ready)>
    ensures { MatchOption result (NoneWaits jobs.now) (λ first. Foremost jobs.now first.0 first.1) }
{
    jobs.iter()
        .enumerate()
        .filter_map(|(line, job)| Some((line, (*job)?)))
        .min_by_key(|(_, job)| job.rank)
}

impl Table {
    // The table in which no job waits.
    pub(crate) fn none() -> Table
        ensures { NoneWaits result.jobs }
    {
        Table {
            jobs: [None; 8],
            foremost: None,
        }
    }

    // Puts a released job in its line's place. The foremost job is then that one or the one before, unless that stood there.
    pub(crate) fn put(&mut self, line: usize, job: Ready)
        requires { (line < 8) × (0 < job.left) }
        ensures { self.new.jobs ≡ slice_set self.old.jobs line (Some job) }
    {
        let before = self.foremost;
        self.jobs[line] = Some(job);
        self.foremost = match before {
            None => Some((line, job)),
            Some((other, _)) if other == line => foremost_of(&self.jobs),
            Some((_, first)) if job.rank < first.rank => Some((line, job)),
            _ => before,
        };
    }

    // The place of the foremost job, if it is overdue at an instant.
    pub(crate) fn overdue(&self, at: u16) -> Option<u16>
        ensures { MatchOption result ((i : ℕ) (job : _) → Waits self.now.jobs i job → at < job.rank.deadline) (λ place. (i : ℕ) × (job : _) × Foremost self.now.jobs i job × (job.rank.deadline ≤ at) × (place ≡ job.rank.place)) }
    {
        let (_, job) = self.foremost?;
        (job.rank.deadline <= at).then_some(job.rank.place)
    }

    // Gives a slot to the foremost job and answers its place, if one waits. Its rank stays, so that it is the foremost until it is
    // finished.
    pub(crate) fn serve(&mut self) -> Option<u16>
        ensures { Serves self.old.jobs result self.new.jobs }
    {
        let (line, job) = self.foremost?;
        let left = job.served();
        self.jobs[line] = left;
        self.foremost = match left {
            Some(job) => Some((line, job)),
            None => foremost_of(&self.jobs),
        };
        Some(job.rank.place)
    }
}
