ghost use Rattle.std.specs.Prelude.{◌≡◌, ◌≤◌, length};
ghost use Rattle.lines.specs.Of.{rows_of};
ghost use Rattle.run.specs.Holding.{Keeping};
ghost use Rattle.run.specs.Timed.{line_at, timed_list, horizon};

use crate::job::Job;
use lines::Lines;

// A list of jobs that passed the checks, with its lines and its largest deadline.
#[derive(Clone, Copy)]
pub(crate) struct Checked<'a> {
    pub(crate) lines: &'a Lines,
    pub(crate) jobs: &'a [Job],
    pub(crate) last_deadline: u16,
    ghost few: { length jobs.now ≤ 2048 },
    ghost within: { last_deadline ≤ 32000 },
    ghost keeping: { Keeping (timed_list (rows_of lines.now) jobs.now) (line_at jobs.now) },
    ghost last: { last_deadline ≡ horizon (rows_of lines.now) jobs.now },
}
