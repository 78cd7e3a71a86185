// The roster of an office mail gateway: its lines over a supply of slots, which deadlines have to be looked at, and the verdict.
#![tactic(auto)]

mod call;
mod certificate;
mod cite;
mod cites;
mod history;
mod releases;
mod roster;
mod witness;

pub use call::Call;
pub use cite::Cite;
pub use history::{JudgedRoster, JudgedRun, after, judged, judged_run};
pub use roster::Roster;
pub use witness::Witness;
