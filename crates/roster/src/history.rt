// A roster after a list of calls, its verdict, and a run on it.
ghost use Rattle.analysis.specs.History.{Reached};
ghost use Rattle.analysis.specs.Legal.{Legal};
ghost use Rattle.analysis.specs.Verdict.{Verdict, ExactVerdict};
ghost use Rattle.refusal.specs.Answers.{Answered};
ghost use Rattle.roster.specs.Calling.{call_of, rows_from};
ghost use Rattle.roster.specs.Running.{AllMet};
ghost use Rattle.roster.specs.Working.{rows_in, watched_in};
ghost use Rattle.run.specs.Checks.{run_checks};
ghost use Rattle.run.specs.Promise.{ByLaw, WellWritten, MetExactly, MissFinal};
ghost use Rattle.std.specs.Prelude.{◌≡◌, length, map, IfOk, None, OnErr};

use crate::call::Call;
use crate::roster::Roster;
use refusal::Refusal;
use run::{Job, Outcome};
use supply::Supply;

// A roster and its verdict: the overloaded deadline, or none where its lines fit.
#[derive(Drop)]
pub struct JudgedRoster<S> {
    pub roster: Roster<S>,
    pub verdict: Option<u16>,
}

// A roster, its verdict, and how a run on it ends, or why that is refused.
#[derive(Drop)]
pub struct JudgedRun<S> {
    pub roster: Roster<S>,
    pub verdict: Option<u16>,
    pub run: Result<Outcome, Refusal>,
}

// A roster over a supply after some calls, in their order; a call that is refused changes nothing.
pub fn after<S: Supply>(supply: S, calls: &[Call]) -> Roster<S>
    ensures keeps_the_supply { result.supply ≡ supply }
    ensures reached_by_the_calls { Reached (S.meaning supply) (map call_of calls.now) (rows_in result) (watched_in result) }
{
    let mut roster = Roster::open(supply);
    for call in calls {
        let _ = roster.make(*call);
    }
    roster
}

// The roster after some calls, and its verdict: it is exact, of the lines that follow from the calls' arguments alone,
// whatever the supply, the calls and the refusals were.
pub fn judged<S: Supply>(supply: S, calls: &[Call]) -> JudgedRoster<S>
    ensures keeps_the_supply { result.roster.supply ≡ supply }
    ensures reached_by_the_calls { Reached (S.meaning supply) (map call_of calls.now) (rows_in result.roster) (watched_in result.roster) }
    ensures lines_follow_from_calls { rows_in result.roster ≡ rows_from calls.now }
    ensures verdict_is_that_of_the_roster { Verdict (S.meaning supply) (rows_in result.roster) (watched_in result.roster) result.verdict }
    ensures verdict_is_exact { ExactVerdict (S.meaning supply) (rows_from calls.now) result.verdict }
{
    let roster = after(supply, calls);
    let verdict = roster.verdict();
    JudgedRoster { roster, verdict }
}

// The roster after some calls, its verdict, and the run of a list of jobs on it, in a phase of the supply, which fills the slot
// list. Where the verdict is that the lines fit, every legal list that is not refused ends with all met, whatever the phase.
pub fn judged_run<S: Supply>(
    supply: S,
    calls: &[Call],
    phase: u32,
    jobs: &[Job],
    slots: &mut [u16],
) -> JudgedRun<S>
    ensures keeps_the_supply { result.roster.supply ≡ supply }
    ensures reached_by_the_calls { Reached (S.meaning supply) (map call_of calls.now) (rows_in result.roster) (watched_in result.roster) }
    ensures lines_follow_from_calls { rows_in result.roster ≡ rows_from calls.now }
    ensures verdict_is_that_of_the_roster { Verdict (S.meaning supply) (rows_in result.roster) (watched_in result.roster) result.verdict }
    ensures verdict_is_exact { ExactVerdict (S.meaning supply) (rows_from calls.now) result.verdict }
    ensures refused_by_checks { Answered result.run (run_checks (rows_from calls.now) jobs.now (length slots.old)) (λ _. Unit {0}) }
    ensures refusal_leaves_slots { OnErr result.run (slots.new ≡ slots.old) }
    ensures slots_follow_edf { IfOk result.run (λ o. ByLaw (S.meaning supply) phase (rows_from calls.now) jobs.now slots.new o) }
    ensures entries_well_written { IfOk result.run (λ o. WellWritten (S.meaning supply) phase (rows_from calls.now) jobs.now slots.new o) }
    ensures met_exactly { IfOk result.run (λ o. MetExactly (S.meaning supply) phase (rows_from calls.now) jobs.now slots.new o) }
    ensures miss_is_final { IfOk result.run (λ o. MissFinal (S.meaning supply) phase (rows_from calls.now) jobs.now o) }
    ensures fitting_lines_meet_all { result.verdict ≡ None → Legal (rows_from calls.now) jobs.now → IfOk result.run (λ o. AllMet (S.meaning supply) phase (rows_from calls.now) jobs.now slots.new o) }
{
    let JudgedRoster { roster, verdict } = judged(supply, calls);
    let run = roster.run(phase, jobs, slots);
    JudgedRun {
        roster,
        verdict,
        run,
    }
}
