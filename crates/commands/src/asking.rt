// Commands that ask a supply.
ghost use Rattle.commands.specs.Asking.{CountWords, LeastWords, Told, count_line, least_line};
ghost use Rattle.commands.specs.Surveying.{SomeSpellsNoLine, SpellLines, Surveys};
ghost use Rattle.std.specs.Prelude.{◌≡◌, ◌≢◌, ◌++◌, ◌⊎◌, Err, MatchResult, codes, decimal, string_bytes};

use crate::answers::figure;
use crate::surveying::survey;
use crate::trouble::Trouble;
use crate::usage::Usage;
use crate::words::{all, number, only};
use lines::Row;
use std::alloc::Global;
use supply::Supply;

// These take the heap, a supply and words: the supply is the session's own, so a struct of the three would only lend it again.

// How many of the first slots are given in a phase.
fn count<S: Supply>(heap: Global, supply: &S, words: &[&str]) -> Result<String, Trouble>
    ensures { Told string_bytes (CountWords words.now) (count_line (S.meaning supply.now) words.now) (Trouble.Usage Usage.Count) result }
{
    let [phase, slots] = words else {
        return Err(Trouble::Usage(Usage::Count));
    };
    let phase = number(phase, Usage::Count)?;
    let slots = number(slots, Usage::Count)?;
    figure(heap, "count", u32::from(supply.count(phase, slots)))
}

// How many given slots any so many slots in a row are sure to hold.
fn least<S: Supply>(heap: Global, supply: &S, words: &[&str]) -> Result<String, Trouble>
    ensures { Told string_bytes (LeastWords words.now) (least_line (S.meaning supply.now) words.now) (Trouble.Usage Usage.Least) result }
{
    let (given, phase) = supply.least(only(words, Usage::Least)?);
    Ok(format!(in heap; "least {given} phase {phase}\n")?)
}

// A command that asks a supply. No other is left.
pub fn ask<S: Supply>(
    heap: Global,
    supply: &S,
    name: &str,
    words: &[&str],
) -> Result<String, Trouble>
    ensures count_in_that_phase_or_usage { name.now ≡ codes "count" → Told string_bytes (CountWords words.now) (count_line (S.meaning supply.now) words.now) (Trouble.Usage Usage.Count) result }
    ensures fewest_slots_or_usage { name.now ≡ codes "least" → Told string_bytes (LeastWords words.now) (least_line (S.meaning supply.now) words.now) (Trouble.Usage Usage.Least) result }
    ensures survey_or_the_first_untaken { name.now ≡ codes "survey" → MatchResult result (λ answer. (rows : _) × SpellLines words.now rows × Surveys (S.meaning supply.now) rows (string_bytes answer)) (λ trouble. (trouble ≡ Trouble.Memory) ⊎ (SomeSpellsNoLine words.now × (trouble ≡ Trouble.Usage Usage.Survey))) }
    ensures other_names_are_unknown { name.now ≢ codes "count" → name.now ≢ codes "least" → name.now ≢ codes "survey" → result ≡ Err (Trouble.Usage Usage.Command) }
{
    match name {
        "count" => count(heap, supply, words),
        "least" => least(heap, supply, words),
        "survey" => {
            let rows: Vec<Row> = all(heap, words, Usage::Survey)?;
            survey(heap, supply, rows.as_slice())
        }
        _ => Err(Trouble::Usage(Usage::Command)),
    }
}

// What is answered where a supply was opened.
pub fn opened<S: Supply>(heap: Global, supply: &S) -> Result<String, Trouble>
    ensures tells_the_phases { MatchResult result (λ answer. string_bytes answer ≡ codes "opened phases" ++ (codes " " ++ (decimal (S.meaning supply.now).phases ++ codes "\n"))) (λ trouble. trouble ≡ Trouble.Memory) }
{
    figure(heap, "opened phases", supply.phases())
}
