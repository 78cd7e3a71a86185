// From the answers of the library to those for C code.
ghost use Rattle.embed.specs.Border.{layer_code, refused_as, report_as, verdict_as, run_as};
ghost use Rattle.std.specs.Prelude.{◌≡◌};

use crate::answers::{Refused, ReportAnswer, RunAnswer, VerdictAnswer};
use refusal::{Layer, Refusal};
use run::Outcome;
use sheet::SheetRefusal;

// The kind of a refusal, in every answer.
const REFUSED: u8 = 0;

// The other kind of the answer of a report.
const WRITTEN: u8 = 1;

// The other kinds of a verdict.
const FITS: u8 = 1;

const OVERLOADED: u8 = 2;

// The other kinds of how a run ends.
const MET: u8 = 1;

const MISSED: u8 = 2;

// Nothing is refused.
const NOTHING: Refused = Refused {
    number: 0,
    layer: 0,
    place: 0,
    record: 0,
    byte: 0,
};

// The number by which C code knows a layer. It is the header's, whatever the order in which the layers are declared.
fn layer_code(layer: Layer) -> u8
    ensures { result ≡ layer_code layer }
{
    match layer {
        Layer::Supply => 1,
        Layer::Roster => 2,
        Layer::Run => 3,
        Layer::Sheet => 4,
    }
}

// Why a sheet, or a call on it, is refused.
impl From<SheetRefusal> for Refused {
    ghost from_gives = { λ why told. told ≡ refused_as why };

    fn from(why: SheetRefusal) -> Refused {
        Refused {
            number: why.refusal.reason.number(),
            layer: layer_code(why.refusal.layer),
            place: why.refusal.place,
            record: why.record,
            byte: why.byte,
        }
    }
}

// What a report answers. Its own refusals are not about the sheet's bytes.
impl From<Result<usize, Refusal>> for ReportAnswer {
    ghost from_gives = { λ written told. told ≡ report_as written };

    fn from(written: Result<usize, Refusal>) -> ReportAnswer {
        match written {
            Ok(length) => ReportAnswer {
                kind: WRITTEN,
                length,
                refused: NOTHING,
            },
            Err(why) => ReportAnswer {
                kind: REFUSED,
                length: 0,
                refused: SheetRefusal::from(why).into(),
            },
        }
    }
}

// What a verdict answers.
impl From<Result<Option<u16>, SheetRefusal>> for VerdictAnswer {
    ghost from_gives = { λ verdict told. told ≡ verdict_as verdict };

    fn from(verdict: Result<Option<u16>, SheetRefusal>) -> VerdictAnswer {
        match verdict {
            Ok(None) => VerdictAnswer {
                kind: FITS,
                deadline: 0,
                refused: NOTHING,
            },
            Ok(Some(deadline)) => VerdictAnswer {
                kind: OVERLOADED,
                deadline,
                refused: NOTHING,
            },
            Err(why) => VerdictAnswer {
                kind: REFUSED,
                deadline: 0,
                refused: why.into(),
            },
        }
    }
}

// What a run answers.
impl From<Result<Outcome, SheetRefusal>> for RunAnswer {
    ghost from_gives = { λ ran told. told ≡ run_as ran };

    fn from(ran: Result<Outcome, SheetRefusal>) -> RunAnswer {
        match ran {
            Ok(Outcome::Met) => RunAnswer {
                kind: MET,
                job: 0,
                at: 0,
                refused: NOTHING,
            },
            Ok(Outcome::Missed { job, at }) => RunAnswer {
                kind: MISSED,
                job,
                at,
                refused: NOTHING,
            },
            Err(why) => RunAnswer {
                kind: REFUSED,
                job: 0,
                at: 0,
                refused: why.into(),
            },
        }
    }
}
