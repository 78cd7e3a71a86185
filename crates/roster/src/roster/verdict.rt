// Whether the lines fit the supply, and where they do not.
ghost use Rattle.std.specs.Prelude.{ℕ, ◌≤◌, List, MatchBool, MatchOption};
ghost use Rattle.analysis.specs.History.{Call, Reached};
ghost use Rattle.analysis.specs.Verdict.{Exceeds, Overloaded, Verdict, ExactVerdict};
ghost use Rattle.analysis.specs.Watching.{Within};
ghost use Rattle.roster.specs.Working.{rows_in, watched_in};
ghost use Rattle.std.specs.List.{ContainsAt as Has};

use crate::roster::Roster;
use supply::Supply;

impl<S: Supply> Roster<S> {
    // The overloaded deadline: the least of all deadlines at which the lines ask for more than the supply is sure to give.
    // There is none where they fit.
    pub fn verdict(&self) -> Option<u16>
        ensures least_overload_or_none { Verdict (S.meaning self.now.supply) (rows_in self.now) (watched_in self.now) result }
        ensures exact_after_any_calls { (calls : List Call) → Reached (S.meaning self.now.supply) calls (rows_in self.now) (watched_in self.now) → ExactVerdict (S.meaning self.now.supply) (rows_in self.now) result }
    {
        let d = self.watched_overload()?;
        self.first_overload(d)
    }

    // Whether the lines ask for more at t than the supply is sure to give.
    fn exceeds(&self, t: u16) -> bool
        ensures { MatchBool result (Exceeds (S.meaning self.now.supply) (rows_in self.now) t) (Within (S.meaning self.now.supply) (rows_in self.now) t) }
    {
        let (least, _) = self.supply.least(t);
        self.lines.demand(t) > u32::from(least)
    }

    // A watched deadline at which the lines ask for too much, if there is one.
    fn watched_overload(&self) -> Option<u16>
        ensures { MatchOption result ((d : ℕ) → Has (watched_in self.now) d → Within (S.meaning self.now.supply) (rows_in self.now) d) (λ d. Has (watched_in self.now) d × Exceeds (S.meaning self.now.supply) (rows_in self.now) d) }
    {
        let watched = self.watched.as_slice();
        watched.iter().copied().find(|d| self.exceeds(*d))
    }

    // The first deadline up to a last one at which the lines ask for too much, if there is one.
    fn first_overload(&self, last: u16) -> Option<u16>
        ensures { MatchOption result ((t : ℕ) → t ≤ last → Within (S.meaning self.now.supply) (rows_in self.now) t) (λ t. Overloaded (S.meaning self.now.supply) (rows_in self.now) t) }
    {
        // A loop: each step starts at the last answer, and `successors` would say that in no fewer words.
        let mut at = 0;
        while let Some(d) = self.lines.next_deadline(at, last) {
            if self.exceeds(d) {
                return Some(d);
            }
            at = d;
        }
        None
    }
}
