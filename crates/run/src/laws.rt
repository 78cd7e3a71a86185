// What is proved of the entries of a run for all slot lists: the function carries a law, and does nothing.
ghost use Rattle.std.specs.Prelude.{◌≡◌, ℕ, ◌<◌, ◌↔◌, List};
ghost use Rattle.edf.specs.Schedule.{Given, idle};
ghost use Rattle.run.specs.Slots.{entry, turn, Entries};

use crate::follow::NOT_GIVEN;

// `NOT_GIVEN` is 65,535, and no job is served where it stands. Before the end of a run it stands just where no slot is given.
pub fn not_given_marks_the_slots_not_given()
    ensures is_65535 { NOT_GIVEN ≡ 65535 }
    ensures serves_no_job { turn NOT_GIVEN ≡ idle }
    ensures stands_just_where_no_slot_is_given { (given : ℕ → ℕ) (slots : List ℕ) (end : ℕ) → Entries given slots end → (s : ℕ) → s < end → (entry slots s ≡ NOT_GIVEN) ↔ (Given given s → ⊥) }
{}
