ghost use Rattle.std.specs.Prelude.{◌≡◌, ℕ, ◌*◌, ◌≤◌, not, ◌||◌, ◌==◌, Bool, [], ◌∷◌, length, nat_lt};
ghost use Rattle.analysis.specs.Watching.{Cite as Cited, weighed};
ghost use Rattle.lines.specs.Demand.{count};
ghost use Rattle.lines.specs.Of.{rows_of, watched};
ghost use Rattle.refusal.specs.Answers.{Answered, check_at};
ghost use Rattle.roster.specs.Certificate.{cites_of, each, listed, cited_check, count_check, figure_checks, supply_check};
ghost use Rattle.roster.specs.Cites.{cite_of, cites_left};

use crate::certificate::Certificate;
use crate::cite::Cite;
use crate::cites::Cites;
use lines::{Line, Lines, WatchList};
use refusal::{Layer, Reason, Refusal};
use supply::Supply;

// A figure times its weight.
fn term(weight: u16, figure: u16) -> u64
    ensures product { result ≡ weight * figure }
    ensures bound { result ≤ 4294836225 }
{
    u64::from(weight) * u64::from(figure)
}

// Whether a deadline is watched and another than d.
fn may_cite(list: &WatchList, d: u16, cited: u16) -> bool
    ensures { (not (listed cited (watched list.now)) || cited == d) ≡ not result }
{
    cited != d && list.contains(cited)
}

impl<'a> Certificate<'a> {
    // The certificate of figures, if they are in range: the divisor is from 1 to 1,000, there are 1 to 8 cites and nothing else,
    // and every weight is from 1 to 1,000.
    pub(crate) fn read(
        deadline: u16,
        divisor: u16,
        bytes: &'a [u8],
    ) -> Result<Certificate<'a>, Refusal>
        ensures { Answered result (figure_checks divisor (cites_of bytes.now)) (λ it. (it.deadline ≡ deadline) × (it.divisor ≡ divisor) × (it.bytes.now ≡ bytes.now)) }
    {
        let out_of_range = Refusal::by(Layer::Roster, Reason::CertificateOutOfRange);
        if divisor < 1 || divisor > 1000 {
            return Err(out_of_range);
        }
        if bytes.len() % 4 != 0 || bytes.len() < 4 || bytes.len() > 32 {
            return Err(out_of_range);
        }
        let certificate = Certificate {
            deadline,
            divisor,
            bytes,
        };
        certificate.check_none(
            |cite| cite.weight < 1 || cite.weight > 1000,
            Reason::CertificateOutOfRange,
        )?;
        Ok(certificate)
    }

    // The cites, in their order.
    fn cites(&self) -> Cites<'a>
        ensures { cites_left result ≡ cites_of self.now.bytes.now }
    {
        Cites::of(self.bytes)
    }

    // No cite is bad; where one is, the first such is refused for a reason, by its place from 1 on.
    fn check_none<F: Fn(Cite) -> bool>(&self, bad: F, reason: Reason) -> Result<(), Refusal>
        requires { F.IsAlwaysCallable bad }
        ensures { (fails : Cited → Bool) → ((cite : _) (r : _) → F.post bad cite r → r ≡ fails (cite_of cite)) → Answered result (each (λ place cite. check_at place (fails cite) reason) 1 (cites_of self.now.bytes.now)) (λ _. Unit {0}) }
    {
        match self.cites().position(bad) {
            None => Ok(()),
            Some(k) => Err(Refusal::by(Layer::Roster, reason).at(1 + k as u32)),
        }
    }

    // Every cite is watched, and none is the deadline that is to leave.
    pub(crate) fn check_cited(&self, list: &WatchList) -> Result<(), Refusal>
        ensures { Answered result (each (cited_check (watched list.now) self.now.deadline) 1 (cites_of self.now.bytes.now)) (λ _. Unit {0}) }
    {
        self.check_none(
            |cite| !may_cite(list, self.deadline, cite.deadline),
            Reason::NotWatched,
        )
    }

    // The weighed sum of a figure over the cited deadlines.
    fn weighed<F: Fn(u16) -> u16>(&self, figure: F) -> u64
        requires { F.IsAlwaysCallable figure }
        ensures { (f : ℕ → ℕ) → ((t n : ℕ) → F.post figure t n → n ≡ f t) → result ≡ weighed f (cites_of self.now.bytes.now) }
    {
        self.cites()
            .map(|cite| term(cite.weight, figure(cite.deadline)))
            .sum()
    }

    // Whether the cites cover the count of a line at the deadline that is to leave.
    fn covers(&self, line: &Line) -> bool
        ensures { nat_lt (weighed (count line.now.row) (cites_of self.now.bytes.now)) (self.now.divisor * count line.now.row self.now.deadline) ≡ not result }
    {
        self.weighed(|t| line.count(t)) >= term(self.divisor, line.count(self.deadline))
    }

    // They cover the count of every line.
    pub(crate) fn check_counts(&self, lines: &Lines) -> Result<(), Refusal>
        ensures { Answered result (each (count_check self.now.deadline self.now.divisor (cites_of self.now.bytes.now)) 0 (rows_of lines.now)) (λ _. Unit {0}) }
    {
        match lines.iter().position(|line| !self.covers(&line)) {
            None => Ok(()),
            Some(number) => {
                Err(Refusal::by(Layer::Roster, Reason::CountNotCovered).at(number as u32))
            }
        }
    }

    // The cites ask of the supply no more than that deadline does.
    pub(crate) fn check_supply<S: Supply>(&self, supply: &S) -> Result<(), Refusal>
        ensures { Answered result (supply_check (S.meaning supply.now) self.now.deadline self.now.divisor (cites_of self.now.bytes.now) ∷ []) (λ _. Unit {0}) }
    {
        let least = |t: u16| supply.least(t).0;
        if self.weighed(&least) > term(self.divisor, least(self.deadline)) {
            return Err(Refusal::by(Layer::Roster, Reason::SupplyNotCovered));
        }
        Ok(())
    }
}
