// The calls that the benchmark times beside those for C code: verdicts, runs and enrolments on plain figures, without a sheet.
#![tactic(auto)]

mod answers;
mod exports;
mod figures;
mod often;

pub use answers::{RunEnd, Verdicts};
pub use exports::{bench_enrol, bench_pile, bench_run, bench_timetable, bench_whole};
pub use figures::Figures;
