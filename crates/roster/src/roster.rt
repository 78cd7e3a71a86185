mod calls;
mod making;
mod reading;
mod running;
mod verdict;
mod witnessing;

use lines::{Lines, WatchList};

// Lines over a supply of slots, and the deadlines at which their demand is compared with what the supply is sure to give.
#[derive(Drop)]
pub struct Roster<S> {
    supply: S,
    lines: Lines,
    watched: WatchList,
}
