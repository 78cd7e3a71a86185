ghost use Rattle.std.specs.Option.{ForNone, ForSome};
ghost use Rattle.std.specs.Prelude.{◌≡◌, ℕ, ◌<◌, length};
ghost use Rattle.run.specs.Ready.{Waits, NoneWaits, Foremost};

mod methods;

use crate::ready::Ready;

// The ready table, an array since there are 8 lines and a run takes no heap: for each line, by its number, the job that it
// released last, if it is unfinished. No earlier job of the line is unfinished, since each is due by the release of the next
// one, and a run stops where a deadline is missed. Beside them stands the foremost of these jobs, behind its line, if one waits,
// so that a slot need not look for it.
#[derive(Clone, Copy)]
pub(crate) struct Table {
    jobs: [Option<Ready>; 8],
    foremost: Option<(usize, Ready)>,
    ghost room: { length jobs ≡ 8 },
    ghost wanting: { (i : ℕ) (job : _) → Waits jobs i job → 0 < job.left },
    ghost idle: { ForNone foremost (NoneWaits jobs) },
    ghost leads: { ForSome foremost (λ first. Foremost jobs first.0 first.1) },
}
