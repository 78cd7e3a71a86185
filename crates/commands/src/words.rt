// What the words of a command stand for.
ghost use Rattle.commands.specs.Typed.{SpellsCite, SpellsJob, SpellsRow};
ghost use Rattle.std.specs.Prelude.{◌≡◌, ◌∷◌, ◌⊎◌, ℕ, Any, List, [], IfErr, IfOk, MatchOption, MatchResult, Ok, Err, length};
ghost use Rattle.std.specs.List.{AllZip};

use crate::trouble::Trouble;
use crate::usage::Usage;
use lines::Row;
use roster::Cite;
use run::Job;
use std::alloc::Global;
use std::str::FromStr;

// A number, where the word is one and its type has room for it.
pub fn number<N: FromStr>(word: &str, usage: Usage) -> Result<N, Trouble>
where
    N::Err: Drop,
    ensures number_spelled_or_usage { MatchResult result (λ n. N.from_str_gives word.now (Ok n)) (λ trouble. (trouble ≡ Trouble.Usage usage) × ((e : _) × N.from_str_gives word.now (Err e))) }
{
    word.parse::<N>().map_err(|_| Trouble::Usage(usage))
}

// The number that stands alone behind a command.
pub fn only<N: FromStr>(words: &[&str], usage: Usage) -> Result<N, Trouble>
where
    N::Err: Drop,
    ensures number_alone_or_usage { MatchResult result (λ n. (word : _) × (words.now ≡ word ∷ []) × N.from_str_gives word.now (Ok n)) (λ trouble. (trouble ≡ Trouble.Usage usage) × ((word : _) → words.now ≡ word ∷ [] → (e : _) × N.from_str_gives word.now (Err e))) }
{
    match words {
        [word] => number(word, usage),
        _ => Err(Trouble::Usage(usage)),
    }
}

// What a single word can stand for. (A `FromStr` would be no plainer: it would put the console's notation into the crates of lines
// and jobs.)
pub trait Typed: Sized {
    // Whether a word spells a value.
    ghost spells: { List ℕ → Self → Type 0 };

    // What a word stands for, if it is written as it should be.
    fn typed(word: &str) -> Option<Self>
        ensures what_the_word_spells { MatchOption result ((x : _) → ¬ spells word.now x) (λ x. spells word.now x) };
}

// T/D/C: the period, the deadline and the cost of a line.
impl Typed for Row {
    ghost spells = { SpellsRow };

    fn typed(word: &str) -> Option<Row> {
        let (period, rest) = word.split_once('/')?;
        let (deadline, cost) = rest.split_once('/')?;
        Some(Row {
            period: period.parse().ok()?,
            deadline: deadline.parse().ok()?,
            cost: cost.parse().ok()?,
        })
    }
}

// C:W: a deadline that is cited, and its weight.
impl Typed for Cite {
    ghost spells = { SpellsCite };

    fn typed(word: &str) -> Option<Cite> {
        let (deadline, weight) = word.split_once(':')?;
        Some(Cite {
            deadline: deadline.parse().ok()?,
            weight: weight.parse().ok()?,
        })
    }
}

// I@R:C: the line of a job, its release and its cost.
impl Typed for Job {
    ghost spells = { SpellsJob };

    fn typed(word: &str) -> Option<Job> {
        let (line, rest) = word.split_once('@')?;
        let (release, cost) = rest.split_once(':')?;
        Some(Job {
            line: line.parse().ok()?,
            release: release.parse().ok()?,
            cost: cost.parse().ok()?,
        })
    }
}

// What each of some words stands for, in their order.
pub fn all<T: Typed + Drop>(heap: Global, words: &[&str], usage: Usage) -> Result<Vec<T>, Trouble>
    ensures each_as_its_word_spells { IfOk result (λ all. AllZip (λ word x. T.spells word.now x) words.now all.items) }
    ensures trouble_of_a_word_that_spells_nothing { IfErr result (λ trouble. (trouble ≡ Trouble.Memory) ⊎ ((trouble ≡ Trouble.Usage usage) × Any (λ word. (x : _) → ¬ T.spells word.now x) words.now)) }
{
    let mut all = Vec::new(heap);
    for word in words {
        all.push(T::typed(word).ok_or(Trouble::Usage(usage))?)?;
    }
    Ok(all)
}
