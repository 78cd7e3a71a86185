// A list of a few values that lie in the value itself, so that it takes no memory and can be copied.
#![tactic(auto)]

mod full;
mod list;

pub use full::Full;
pub use list::ShortList;
