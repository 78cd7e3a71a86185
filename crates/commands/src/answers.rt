// Answers that are told in one place.
ghost use Rattle.std.specs.Option.{IfSome};
ghost use Rattle.std.specs.Prelude.{◌≡◌, ◌++◌, MatchResult, codes, decimal, string_bytes};

use crate::trouble::Trouble;
use std::alloc::Global;
use std::fmt;

// What is shown of a value.
pub fn text<T: fmt::Display>(heap: Global, shown: &T) -> Result<String, Trouble>
    ensures text_as_shown { MatchResult result (λ answer. IfSome (T.output shown.now) (λ bytes. string_bytes answer ≡ bytes)) (λ trouble. trouble ≡ Trouble.Memory) }
{
    Ok(format!(in heap; "{shown}")?)
}

// A figure behind some words, on a line.
pub fn figure(heap: Global, words: &str, figure: u32) -> Result<String, Trouble>
    ensures figure_behind_the_words { MatchResult result (λ answer. string_bytes answer ≡ words.now ++ (codes " " ++ (decimal figure ++ codes "\n"))) (λ trouble. trouble ≡ Trouble.Memory) }
{
    Ok(format!(in heap; "{words} {figure}\n")?)
}
