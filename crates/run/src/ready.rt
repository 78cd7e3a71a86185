ghost use Rattle.std.specs.Prelude.{◌≡◌, ◌<◌};
ghost use Rattle.run.specs.Ready.{served};

// A job's turn among those that are ready: what is due first goes first, and of jobs that are due together the one whose
// place is lowest. The derived order compares the fields from the first on.
#[derive(Clone, Copy, PartialEq, Eq, PartialOrd, Ord)]
pub(crate) struct Rank {
    pub(crate) deadline: u16,
    pub(crate) place: u16,
}

// A released job that is not finished: its rank, and the slots that it still wants.
#[derive(Clone, Copy)]
pub(crate) struct Ready {
    pub(crate) rank: Rank,
    pub(crate) left: u16,
}

impl Ready {
    // The job after a slot that it got, if it wants another.
    pub(crate) fn served(self) -> Option<Ready>
        requires { 0 < self.left }
        ensures { result ≡ served self }
    {
        let left = self.left - 1;
        (left > 0).then_some(Ready { left, ..self })
    }
}
