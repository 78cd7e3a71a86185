// What a set of lines would ask of a supply, without touching the roster.
ghost use Rattle.commands.specs.Surveying.{FirstUntaken, Surveys, TakenBefore, untaken_text};
ghost use Rattle.lines.specs.Of.{rows_of, watched};
ghost use Rattle.lines.specs.Rest.{full_list};
ghost use Rattle.std.specs.Prelude.{◌≡◌, MatchResult, Some, length, string_bytes};

use crate::answers::text;
use crate::trouble::Trouble;
use lines::{Lines, Row, WatchList};
use refusal::Refusal;
use std::alloc::Global;
use std::fmt;
use supply::Supply;
use texts::Survey;

// The first line that can't be taken, and why.
#[derive(Clone, Copy)]
struct Untaken {
    number: usize,
    refusal: Refusal,
}

impl fmt::Display for Untaken {
    ghost output = { λ untaken. Some (untaken_text untaken) };

    fn fmt<W: fmt::Write>(&self, f: &mut fmt::Formatter<W>) -> fmt::Result {
        let Untaken { number, refusal } = *self;
        write!(f, "{refusal} (line {number} of the survey)\n")
    }
}

// The lines of a survey and their full watch list.
fn taken(rows: &[Row]) -> Result<(Lines, WatchList), Untaken>
    ensures { MatchResult result (λ made. TakenBefore rows.now (length rows.now) × (rows_of made.0 ≡ rows.now) × (watched made.1 ≡ full_list rows.now)) (λ untaken. FirstUntaken rows.now untaken) }
{
    let mut taken = (Lines::none(), WatchList::none());
    for (number, row) in rows.iter().enumerate() {
        match taken.0.add(*row) {
            Ok(more) => taken = more,
            Err(refusal) => return Err(Untaken { number, refusal }),
        }
    }
    Ok(taken)
}

// The survey of rows on a supply, or the refusal of the first that can't be taken.
pub(crate) fn survey<S: Supply>(heap: Global, supply: &S, rows: &[Row]) -> Result<String, Trouble>
    ensures { MatchResult result (λ answer. Surveys (S.meaning supply.now) rows.now (string_bytes answer)) (λ trouble. trouble ≡ Trouble.Memory) }
{
    match taken(rows) {
        Ok((lines, watched)) => {
            let survey = Survey {
                supply,
                lines: &lines,
                watched: watched.as_slice(),
            };
            text(heap, &survey)
        }
        Err(untaken) => text(heap, &untaken),
    }
}
