ghost use Rattle.lines.specs.Of.{rows_of};
ghost use Rattle.refusal.specs.Answers.{Answered};
ghost use Rattle.run.specs.Checks.{run_checks};
ghost use Rattle.run.specs.Promise.{ByLaw, WellWritten, MetExactly, MissFinal};
ghost use Rattle.std.specs.Prelude.{◌≡◌, length, IfOk, OnErr};

use crate::checked::Checked;
use crate::checks::refused;
use crate::job::Job;
use crate::outcome::Outcome;
use lines::Lines;
use refusal::{Reason, Refusal};
use supply::Supply;

// Runs a list of jobs of some lines in a phase of a supply, and fills the slot list: each given slot goes to the
// released, unfinished job that is due first, the lower place before the higher, up to the largest deadline or the first miss.
pub fn run<S: Supply>(
    supply: &S,
    phase: u32,
    lines: &Lines,
    jobs: &[Job],
    slots: &mut [u16],
) -> Result<Outcome, Refusal>
    ensures refused_by_checks { Answered result (run_checks (rows_of lines.now) jobs.now (length slots.old)) (λ _. Unit {0}) }
    ensures refusal_leaves_slots { OnErr result (slots.new ≡ slots.old) }
    ensures slots_follow_edf { IfOk result (λ o. ByLaw (S.meaning supply.now) phase (rows_of lines.now) jobs.now slots.new o) }
    ensures entries_well_written { IfOk result (λ o. WellWritten (S.meaning supply.now) phase (rows_of lines.now) jobs.now slots.new o) }
    ensures met_exactly { IfOk result (λ o. MetExactly (S.meaning supply.now) phase (rows_of lines.now) jobs.now slots.new o) }
    ensures miss_is_final { IfOk result (λ o. MissFinal (S.meaning supply.now) phase (rows_of lines.now) jobs.now o) }
{
    let list = Checked::new(lines, jobs)?;
    if slots.len() < usize::from(list.last_deadline) {
        return Err(refused(Reason::ListTooShort, u32::from(list.last_deadline)));
    }
    Ok(list.follow(supply, phase, slots))
}
