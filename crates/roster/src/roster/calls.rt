// The calls that make and change a roster.
ghost use Rattle.analysis.specs.History.{enrol, strike, recost, cut};
ghost use Rattle.refusal.specs.Answers.{Answered};
ghost use Rattle.roster.specs.Certificate.{cites_of, cut_checks};
ghost use Rattle.roster.specs.Working.{rows_in, watched_in, Works};
ghost use Rattle.std.specs.Prelude.{◌≡◌, [], length};

use crate::certificate::Certificate;
use crate::roster::Roster;
use lines::{Lines, Row, WatchList};
use refusal::{Layer, Reason, Refusal};
use supply::Supply;

impl<S: Supply> Roster<S> {
    // A roster over a supply, without lines.
    pub fn open(supply: S) -> Roster<S>
        ensures takes_the_supply { result.supply ≡ supply }
        ensures holds_no_line { rows_in result ≡ [] }
        ensures watches_nothing { watched_in result ≡ [] }
    {
        Roster {
            supply,
            lines: Lines::none(),
            watched: WatchList::none(),
        }
    }

    // One line more, which gets the next number; every deadline up to the first rest point is then looked at.
    pub fn enrol(&mut self, row: Row) -> Result<u8, Refusal>
        ensures added_last_or_refused_by_checks { Works (S.meaning self.old.supply) self.old self.new (enrol row) result (λ number. number ≡ length (rows_in self.old)) }
    {
        let number = self.lines.len();
        let (lines, watched) = self.lines.add(row)?;
        self.lines = lines;
        self.watched = watched;
        Ok(number as u8)
    }

    // A line leaves, and the later ones are numbered one lower; every deadline up to the first rest point is then looked at.
    pub fn strike(&mut self, number: u8) -> Result<(), Refusal>
        ensures removed_or_refused_by_checks { Works (S.meaning self.old.supply) self.old self.new (strike number) result (λ _. Unit {0}) }
    {
        let missing = Refusal::by(Layer::Roster, Reason::NoSuchLine).at(u32::from(number));
        let (lines, watched) = self.lines.remove(usize::from(number)).ok_or(missing)?;
        self.lines = lines;
        self.watched = watched;
        Ok(())
    }

    // A line gets a new cost; the deadlines that are looked at stay.
    pub fn recost(&mut self, number: u8, cost: u16) -> Result<(), Refusal>
        ensures cost_changed_or_refused_by_checks { Works (S.meaning self.old.supply) self.old self.new (recost number cost) result (λ _. Unit {0}) }
    {
        self.lines.recost(number, cost)
    }

    // A deadline need not be looked at any more, where its certificate is accepted.
    pub fn cut(&mut self, deadline: u16, divisor: u16, cites: &[u8]) -> Result<(), Refusal>
        ensures deadline_leaves_or_refused_by_checks { Works (S.meaning self.old.supply) self.old self.new (cut deadline divisor (cites_of cites.now)) result (λ _. Unit {0}) }
    {
        self.certified(deadline, divisor, cites)?;
        self.watched = self.watched.without(deadline);
        Ok(())
    }

    // Whether a certificate is accepted.
    fn certified(&self, deadline: u16, divisor: u16, cites: &[u8]) -> Result<(), Refusal>
        ensures { Answered result (cut_checks (S.meaning self.now.supply) (rows_in self.now) (watched_in self.now) deadline divisor (cites_of cites.now)) (λ _. Unit {0}) }
    {
        let certificate = Certificate::read(deadline, divisor, cites)?;
        if !self.watched.contains(deadline) {
            return Err(Refusal::by(Layer::Roster, Reason::NotWatched));
        }
        certificate.check_cited(&self.watched)?;
        certificate.check_counts(&self.lines)?;
        certificate.check_supply(&self.supply)
    }
}
