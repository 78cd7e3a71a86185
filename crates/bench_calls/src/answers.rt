// What the benchmark is answered: kinds are numbers, as in the answers for C code.
ghost use Rattle.bench_calls.specs.Promises.{verdicts_as, end_as};
ghost use Rattle.std.specs.Prelude.{◌≡◌};

use run::Outcome;

// Nothing was judged or run.
const NOTHING: u8 = 0;

const FITS: u8 = 1;

const OVERLOADED: u8 = 2;

const MET: u8 = 1;

const MISSED: u8 = 2;

// The verdict: kind 0, nothing was judged; 1, the lines fit; or 2, overloaded, with the deadline.
#[repr(C)]
#[derive(Clone, Copy)]
pub struct Verdicts {
    pub kind: u8,
    pub deadline: u16,
}

// How a run ends: kind 0, nothing was run; 1, all met; or 2, missed, with the place of the job and the instant.
#[repr(C)]
#[derive(Clone, Copy)]
pub struct RunEnd {
    pub kind: u8,
    pub job: u16,
    pub at: u16,
}

impl From<Option<Option<u16>>> for Verdicts {
    ghost from_gives = { λ verdict told. told ≡ verdicts_as verdict };

    fn from(verdict: Option<Option<u16>>) -> Verdicts {
        match verdict {
            None => Verdicts {
                kind: NOTHING,
                deadline: 0,
            },
            Some(None) => Verdicts {
                kind: FITS,
                deadline: 0,
            },
            Some(Some(deadline)) => Verdicts {
                kind: OVERLOADED,
                deadline,
            },
        }
    }
}

impl From<Option<Outcome>> for RunEnd {
    ghost from_gives = { λ outcome told. told ≡ end_as outcome };

    fn from(outcome: Option<Outcome>) -> RunEnd {
        match outcome {
            None => RunEnd {
                kind: NOTHING,
                job: 0,
                at: 0,
            },
            Some(Outcome::Met) => RunEnd {
                kind: MET,
                job: 0,
                at: 0,
            },
            Some(Outcome::Missed { job, at }) => RunEnd {
                kind: MISSED,
                job,
                at,
            },
        }
    }
}
