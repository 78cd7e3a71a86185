// What is proved of every supply, of rows that repeat, and of patterns: each function carries a theorem, and does nothing.
ghost use Rattle.std.specs.Prelude.{ℕ, ◌<◌};
ghost use Rattle.supply.specs.Meaning.{Bounded, Lawful, Monotone, Superadditive};
ghost use Rattle.supply.specs.Row.{Row, TurnsAddTheSame, WorstIsFirst, repeating};
ghost use Rattle.supply.specs.Share.{LawfulPattern, SureIsAttained, SureIsMinimum};

use crate::supply::Supply;

// For every supply: least is at most the number of slots, grows with it, and adds up over windows.
pub fn fewest_slots_add_up<S: Supply>(supply: &S)
    ensures at_most_all_are_given { Bounded (S.meaning supply.now) }
    ensures more_slots_hold_no_fewer { Monotone (S.meaning supply.now) }
    ensures windows_add_up { Superadditive (S.meaning supply.now) }
{}

// For every row of at least one slot, as a supply that repeats for ever: it is lawful, its worst phase is the first of
// those with the fewest given slots, and whole turns add the same at every start.
pub fn repeated_rows_are_lawful()
    ensures rows_are_lawful_supplies { (r : Row) → 0 < r.turn → Lawful (repeating r) }
    ensures worst_is_first_of_the_fewest { (r : Row) → WorstIsFirst r }
    ensures whole_turns_add_the_same { (r : Row) → TurnsAddTheSame r }
{}

// For every pattern of a share: what it is sure to take is its minimum over the starts, and one start attains it.
pub fn sure_slots_are_the_minimum()
    ensures sure_is_minimum_over_starts { (given : ℕ) (of : ℕ) → LawfulPattern given of → SureIsMinimum given of }
    ensures one_start_attains_it { (given : ℕ) (of : ℕ) → LawfulPattern given of → SureIsAttained given of }
{}
