ghost use Rattle.refusal.specs.Answers.{Answered};
ghost use Rattle.std.specs.Prelude.{◌≡◌, ◌^◌, ◌<◌, ◌≤◌, true, false, [], ◌∷◌};
ghost use Rattle.supply.specs.Making.{timetable_check};

use crate::timetable::Timetable;
use refusal::{Layer, Reason, Refusal};

// Whether a word has no bit from the length upward.
fn within(length: u8, word: u64) -> bool
    requires { length ≤ 64 }
    ensures inside { result ≡ true → word < 2 ^ length }
    ensures outside { result ≡ false → 2 ^ length ≤ word }
{
    length == 64 || word >> length == 0
}

impl Timetable {
    // The timetable of a length and a word, or a refusal where they make none.
    pub fn new(length: u8, word: u64) -> Result<Timetable, Refusal>
        ensures made_or_refused_by_checks { Answered result (timetable_check length word ∷ []) (λ t. (t.length ≡ length) × (t.word ≡ word)) }
    {
        if length < 1 || length > 64 || word == 0 || !within(length, word) {
            return Err(Refusal::by(Layer::Supply, Reason::TimetableUnlawful));
        }
        Ok(Timetable { length, word })
    }

    // The number of slots of a turn.
    pub fn length(&self) -> u8
        ensures length_of_a_turn { result ≡ self.now.length }
    {
        self.length
    }

    // The word whose bits say which slots of a turn are given.
    pub fn word(&self) -> u64
        ensures word_of_a_turn { result ≡ self.now.word }
    {
        self.word
    }
}
