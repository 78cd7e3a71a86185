// What a person reads of lines and runs: counts, surveys, job lists, and charts.
#![tactic(auto)]

mod chart;
mod counts;
mod due;
mod jobs;
mod run_text;
mod survey;

pub use counts::Counts;
pub use jobs::Jobs;
pub use run_text::RunText;
pub use survey::Survey;
