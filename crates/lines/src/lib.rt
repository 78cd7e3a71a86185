// Phone lines: their figures, how many jobs fall due, where they rest and which deadlines have to be watched.
#![tactic(auto)]

mod deadlines;
mod laws;
mod line;
mod line_iter;
mod rest;
mod row;
mod table;
mod watch_list;

pub use laws::{
    deadlines_rise_and_are_all, fewer_lines_rest_no_later, hyperperiod_is_least_and_rest_within,
    line_counts_and_rests_by_its_jobs,
};
pub use line::Line;
pub use line_iter::LineIter;
pub use row::Row;
pub use table::Lines;
pub use watch_list::WatchList;
