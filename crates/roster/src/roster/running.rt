// A run of job lists on a roster's lines and supply.
ghost use Rattle.analysis.specs.History.{Call, Reached};
ghost use Rattle.analysis.specs.Legal.{Legal};
ghost use Rattle.analysis.specs.Verdict.{Verdict};
ghost use Rattle.edf.specs.Run.{met};
ghost use Rattle.refusal.specs.Answers.{Answered};
ghost use Rattle.roster.specs.Working.{rows_in, watched_in};
ghost use Rattle.run.specs.Checks.{run_checks};
ghost use Rattle.run.specs.Outcomes.{outcome};
ghost use Rattle.run.specs.Promise.{ByLaw, WellWritten, MetExactly, MissFinal};
ghost use Rattle.std.specs.Prelude.{◌≡◌, List, length, IfOk, None, OnErr};

use crate::roster::Roster;
use refusal::Refusal;
use run::{Job, Outcome};
use supply::Supply;

impl<S: Supply> Roster<S> {
    // Runs a list of jobs of the roster's lines in a phase of its supply, and fills the slot list. Where the lines fit,
    // after whatever calls, every legal list ends with all met.
    pub fn run(&self, phase: u32, jobs: &[Job], slots: &mut [u16]) -> Result<Outcome, Refusal>
        ensures refused_by_checks { Answered result (run_checks (rows_in self.now) jobs.now (length slots.old)) (λ _. Unit {0}) }
        ensures refusal_leaves_slots { OnErr result (slots.new ≡ slots.old) }
        ensures slots_follow_edf { IfOk result (λ o. ByLaw (S.meaning self.now.supply) phase (rows_in self.now) jobs.now slots.new o) }
        ensures entries_well_written { IfOk result (λ o. WellWritten (S.meaning self.now.supply) phase (rows_in self.now) jobs.now slots.new o) }
        ensures met_exactly { IfOk result (λ o. MetExactly (S.meaning self.now.supply) phase (rows_in self.now) jobs.now slots.new o) }
        ensures miss_is_final { IfOk result (λ o. MissFinal (S.meaning self.now.supply) phase (rows_in self.now) jobs.now o) }
        ensures fitting_lines_meet_all { (calls : List Call) → Reached (S.meaning self.now.supply) calls (rows_in self.now) (watched_in self.now) → Verdict (S.meaning self.now.supply) (rows_in self.now) (watched_in self.now) None → Legal (rows_in self.now) jobs.now → IfOk result (λ o. outcome o ≡ met) }
    {
        run::run(&self.supply, phase, &self.lines, jobs, slots)
    }
}
