// The hyperperiod and the first rest point of lines.
ghost use Rattle.std.specs.Prelude.{◌≡◌, ℕ, ◌<◌, ◌≤◌, true, false, MatchOption};
ghost use Rattle.lines.specs.Common.{Common, LeastCommon};
ghost use Rattle.lines.specs.Rest.{every, resting, hyperperiod, first_rest};
ghost use Rattle.lines.specs.Left.{rows_left};

use crate::line_iter::LineIter;

// The longest hyperperiod that is taken.
pub(crate) const LONGEST: u16 = 30_000;

// The least common multiple of two numbers, unless it is over 30,000: a walk over the multiples of the larger.
fn least_common(a: u16, b: u16) -> Option<u16>
    requires { (1 ≤ a) × (1 ≤ b) × (a ≤ 30000) × (b ≤ 30000) }
    ensures { MatchOption result ((m : ℕ) → Common a b m → 30000 < m) (λ m. LeastCommon a b m × (m ≤ 30000)) }
{
    let step = a.max(b);
    let other = a.min(b);
    // A loop: a `find` over the turns k needs clauses at its closure, that k * step fits and that `other` is not 0.
    let mut m = step;
    while m % other != 0 {
        if m > LONGEST - step {
            return None;
        }
        m += step;
    }
    Some(m)
}

// The hyperperiod, unless it is over 30,000.
pub(crate) fn hyperperiod_of(lines: LineIter<'_>) -> Option<u16>
    ensures { MatchOption result (30000 < hyperperiod (rows_left lines.entry)) (λ h. (h ≡ hyperperiod (rows_left lines.entry)) × (h ≤ 30000)) }
{
    // A loop: `least_common` asks for numbers in range, and no lemma tells that of each step of a `try_fold`.
    let mut h = 1;
    for line in lines {
        h = least_common(h, line.row().period)?;
    }
    Some(h)
}

// Where some line does not rest at t: the next instant at which it does.
fn next_rest(lines: LineIter<'_>, t: u16) -> Option<u16>
    requires { t ≤ 30000 }
    ensures { MatchOption result (every (resting t) (rows_left lines.entry) ≡ true) (λ u. (t < u) × ((k : ℕ) → t ≤ k → k < u → every (resting k) (rows_left lines.entry) ≡ false)) }
{
    // A loop: the proof of a `find_map` didn't close. The library tells what it answers by the calls that ran, and no lemma makes
    // that a fact about each line.
    for line in lines {
        if let Some(later) = line.next_rest(t) {
            return Some(later);
        }
    }
    None
}

// The first rest point.
pub(crate) fn first_rest_of(lines: LineIter<'_>) -> u16
    requires { hyperperiod (rows_left lines) ≤ 30000 }
    ensures { (result ≡ first_rest (rows_left lines.entry)) × (result ≤ 30000) }
{
    // A loop: each step starts at the last answer, and `successors` would say that in no fewer words.
    let mut t = 1;
    while let Some(later) = next_rest(lines, t) {
        t = later;
    }
    t
}
