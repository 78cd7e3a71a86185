ghost use Rattle.refusal.specs.Answers.{Answered};
ghost use Rattle.refusal.specs.declared.reason.Reason.TheVariants.{ShareUnlawful};
ghost use Rattle.std.specs.Prelude.{◌≡◌, ◌*◌, ◌<◌, ◌≤◌, [], ◌∷◌, IfErr, MatchOption};
ghost use Rattle.supply.specs.Making.{by_supply, share_check, refusal_in};
ghost use Rattle.supply.specs.Piles.{share_laws};
ghost use Rattle.supply.specs.Share.{most_phases, share};

use crate::pattern::Pattern;
use crate::supply::Supply;
use refusal::{Layer, Reason, Refusal};

// The largest number of phases of a share.
const MOST_PHASES: u32 = 1_000_000;

// A share of the slots that the supply below gives. One that would have too many phases means what the supply below means.
#[derive(Clone, Copy, PartialEq, Eq)]
pub struct Share<B> {
    below: B,
    pattern: Pattern,
}

// A share that was not made, with the supply that it would have stood over.
#[derive(Clone, Copy)]
pub struct ShareRefused<B> {
    pub refusal: Refusal,
    pub below: B,
}

// Where the supply below is not wanted back.
impl<B: Drop> From<ShareRefused<B>> for Refusal {
    ghost from_gives = { λ refused refusal. refusal ≡ refused.refusal };

    fn from(refused: ShareRefused<B>) -> Refusal {
        refused.refusal
    }
}

// The number of phases of a share, unless they are too many.
fn piled_phases(below: u32, turn: u32) -> Option<u32>
    ensures { MatchOption result (most_phases < below * turn) (λ all. (all ≡ below * turn) × (all ≤ most_phases)) }
{
    below.checked_mul(turn).filter(|all| *all <= MOST_PHASES)
}

// The refusal of a share over a supply.
fn unlawful<B>(below: B) -> ShareRefused<B>
    ensures refusal { result.refusal ≡ by_supply ShareUnlawful }
    ensures below { result.below ≡ below }
{
    ShareRefused {
        refusal: Refusal::by(Layer::Supply, Reason::ShareUnlawful),
        below,
    }
}

impl<B: Supply> Share<B> {
    // A share of s in f over a supply, or a refusal that hands the supply back.
    pub fn new(below: B, s: u8, f: u8) -> Result<Share<B>, ShareRefused<B>>
        ensures made_or_refused_by_checks { Answered (refusal_in result) (share_check (B.meaning below) s f ∷ []) (λ share. (share.below ≡ below) × (share.pattern.given ≡ s) × (share.pattern.of ≡ f)) }
        ensures refusal_hands_supply_back { IfErr result (λ e. e.below ≡ below) }
    {
        match (
            piled_phases(below.phases(), u32::from(f)),
            Pattern::new(s, f),
        ) {
            (Some(_), Some(pattern)) => Ok(Share { below, pattern }),
            _ => Err(unlawful(below)),
        }
    }
}

impl<B: Supply> Supply for Share<B> {
    ghost meaning = { λ s. share s.pattern.given s.pattern.of (B.meaning s.below) };

    ghost counts = { λ s. (share_laws (B.lawful s.below) s.pattern).counts };

    ghost windows = { λ s. (share_laws (B.lawful s.below) s.pattern).windows };

    ghost attained = { λ s. (share_laws (B.lawful s.below) s.pattern).attained };

    fn phases(&self) -> u32 {
        let below = self.below.phases();
        piled_phases(below, self.pattern.turn()).unwrap_or(below)
    }

    fn count(&self, phase: u32, n: u16) -> u16 {
        let below = self.below.phases();
        match piled_phases(below, self.pattern.turn()) {
            Some(all) => {
                let own = phase % all;
                let given = self.below.count(own % below, n);
                self.pattern.taken_from(own / below, given)
            }
            None => self.below.count(phase, n),
        }
    }

    fn least(&self, n: u16) -> (u16, u32) {
        let below = self.below.phases();
        let (given, worst) = self.below.least(n);
        match piled_phases(below, self.pattern.turn()) {
            Some(_) => (
                self.pattern.sure_of(given),
                worst + below * self.pattern.worst_start(),
            ),
            None => (given, worst),
        }
    }
}
