ghost use Rattle.run.specs.Outcomes.{text};
ghost use Rattle.std.specs.Prelude.{Some};

use std::fmt;

// How a run ends: every deadline met, or the job at a place missed its deadline at an instant.
// (No `Result` of its own, since a miss is an answer of the run and no failure: the run's `Err` is a refusal.)
#[derive(Clone, Copy, PartialEq, Eq)]
pub enum Outcome {
    Met,
    Missed { job: u16, at: u16 },
}

impl fmt::Display for Outcome {
    ghost output = { λ outcome. Some (text outcome) };

    fn fmt<W: fmt::Write>(&self, f: &mut fmt::Formatter<W>) -> fmt::Result {
        match *self {
            Outcome::Met => f.write_str("all met"),
            Outcome::Missed { job, at } => write!(f, "job {job} misses its deadline at {at}"),
        }
    }
}
