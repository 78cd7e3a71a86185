// Why a deadline of a roster is or is not watched, as a person reads it.
#![tactic(auto)]

mod certificate;
mod explanation;

pub use certificate::Certificate;
pub use explanation::Explanation;
