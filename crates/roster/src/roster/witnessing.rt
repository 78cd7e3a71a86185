// The witness of an overloaded roster.
ghost use Rattle.std.specs.Prelude.{◌≡◌, ℕ, List, length, take, IfOk, Option, OnErr};
ghost use Rattle.analysis.specs.History.{Call, Reached};
ghost use Rattle.analysis.specs.Legal.{Legal};
ghost use Rattle.analysis.specs.Verdict.{MetIn, Verdict};
ghost use Rattle.refusal.specs.Answers.{Answered, left};
ghost use Rattle.roster.specs.Lent.{fronted};
ghost use Rattle.roster.specs.Witnessing.{witness_checks, witness_jobs, witness_phase};
ghost use Rattle.roster.specs.Working.{rows_in, watched_in};

use crate::releases::{number_released, write_released};
use crate::roster::Roster;
use crate::witness::Witness;
use refusal::{Layer, Reason, Refusal};
use run::Job;
use supply::Supply;

impl<S: Supply> Roster<S> {
    // Where the lines are overloaded, writes the jobs that ask the most by the overloaded deadline at the front of a list, and
    // answers the phase in which no schedule meets them, and their number. What stands behind them stays.
    pub fn witness(&self, list: &mut [Job]) -> Result<Witness, Refusal>
        ensures phase_and_number_by_checks { (verdict : Option ℕ) → Verdict (S.meaning self.now.supply) (rows_in self.now) (watched_in self.now) verdict → Answered result (witness_checks (rows_in self.now) verdict (length list.old)) (λ w. (w.phase ≡ witness_phase (S.meaning self.now.supply) verdict) × (w.jobs ≡ length (witness_jobs (rows_in self.now) verdict))) }
        ensures list_holds_witness { (verdict : Option ℕ) → Verdict (S.meaning self.now.supply) (rows_in self.now) (watched_in self.now) verdict → list.new ≡ left result (fronted (witness_jobs (rows_in self.now) verdict) list.old) list.old }
        ensures refusal_leaves_list { OnErr result (list.new ≡ list.old) }
        ensures no_schedule_meets_it { (calls : List Call) → Reached (S.meaning self.now.supply) calls (rows_in self.now) (watched_in self.now) → IfOk result (λ w. Legal (rows_in self.now) (take w.jobs list.new) × (MetIn (S.meaning self.now.supply) (rows_in self.now) (take w.jobs list.new) w.phase → ⊥)) }
    {
        let t = self
            .verdict()
            .ok_or(Refusal::by(Layer::Roster, Reason::NothingOverloaded))?;
        let number = number_released(&self.lines, t);
        let jobs = number as usize;
        if list.len() < jobs {
            return Err(Refusal::by(Layer::Roster, Reason::ListTooShort).at(number));
        }
        write_released(&self.lines, t, list);
        let (_, phase) = self.supply.least(t);
        Ok(Witness { phase, jobs })
    }
}
