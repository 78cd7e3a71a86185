// The run: a list of jobs on the given slots of a supply, slot by slot, by earliest deadline first.
#![tactic(auto)]

mod call;
mod checked;
mod checks;
mod follow;
mod job;
mod laws;
mod outcome;
mod ready;
mod releases;
mod table;

pub use call::run;
pub use follow::NOT_GIVEN;
pub use job::Job;
pub use laws::not_given_marks_the_slots_not_given;
pub use outcome::Outcome;
