// Earliest-deadline-first scheduling of timed jobs over given slots. The theorems stand on the contracts of functions that
// do nothing else.
#![tactic(auto)]

mod theorems;

pub use theorems::{
    late_job_ends_an_overloaded_window, late_under_the_law_is_late_always,
    law_determines_the_schedule, law_has_a_schedule, met_exactly_with_room,
    met_list_has_room_everywhere, room_everywhere_suffices, runs_are_determined_exact_and_optimal,
    stopped_law_meets_exactly_on_time,
};
