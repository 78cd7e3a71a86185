// What the programs share that compare the library with known figures and slow counts: tallies of what was compared, numbers
// that look random, and how their tables write lines, supplies, watch lists and refusals.
#![tactic(auto)]

mod front;
mod jobs;
mod plan;
mod random;
mod tables;
mod tally;
mod turn;
mod untaken;
mod watched;

pub use front::holds;
pub use jobs::may_release;
pub use lines::Row;
pub use plan::Plan;
pub use random::{Generator, Random, Steps, Upper};
pub use refusal::{Layer, Reason, Refusal};
pub use run::Job;
pub use tally::{Tally, print};
pub use turn::next_place;
pub use untaken::Untaken;
pub use watched::Watched;
