// The library for C code: the report on a sheet, its verdict, and the run of a list of jobs on its lines.
#![tactic(auto)]

mod answers;
mod border;
mod calls;
mod exports;

pub use answers::{Refused, ReportAnswer, RunAnswer, VerdictAnswer};
pub use exports::{zucchinicove_report, zucchinicove_run, zucchinicove_verdict};
