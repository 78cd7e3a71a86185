// One run, and how it ends.
use lines::{Lines, Row};
use refusal::Refusal;
use run::{Job, Outcome, run};
use std::alloc::{AllocError, Global};
use std::fmt;
use supply::Supply;

// What every slot holds before a run.
pub(crate) const BEFORE: u16 = 7;

// What is run on a supply: jobs of the lines of some rows, in a phase, into so many slots.
#[derive(Clone, Copy)]
pub(crate) struct Case<'a> {
    pub(crate) rows: &'a [Row],
    pub(crate) jobs: &'a [Job],
    pub(crate) phase: u32,
    pub(crate) slots: usize,
}

// A run: its answer, and what the slots held after it.
#[derive(PartialEq, Drop)]
pub(crate) struct Trial {
    pub(crate) answer: Result<Outcome, Refusal>,
    pub(crate) slots: Vec<u16>,
}

// What a person reads of a run's answer.
impl fmt::Display for Trial {
    fn fmt<W: fmt::Write>(&self, f: &mut fmt::Formatter<W>) -> fmt::Result {
        match &self.answer {
            Ok(outcome) => outcome.fmt(f),
            Err(refusal) => refusal.fmt(f),
        }
    }
}

// The lines of some rows, up to the first that can't be taken.
pub(crate) fn lines_of(rows: &[Row]) -> Lines {
    let mut lines = Lines::none();
    for row in rows {
        let Ok((more, _)) = lines.add(*row) else {
            break;
        };
        lines = more;
    }
    lines
}

impl Case<'_> {
    // Runs it.
    pub(crate) fn tried<S: Supply>(self, heap: Global, supply: &S) -> Result<Trial, AllocError> {
        let mut slots = vec![in heap; BEFORE; self.slots]?;
        let lines = lines_of(self.rows);
        let answer = run(supply, self.phase, &lines, self.jobs, slots.as_mut_slice());
        Ok(Trial { answer, slots })
    }
}
