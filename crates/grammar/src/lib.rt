// The sheet's grammar: what bytes spell, and what a sheet means.
#![tactic(auto)]

mod fields;
mod theorems;

pub use fields::Fields;
pub use theorems::{
    accepted_sheet_is_a_history, bytes_have_one_reading, written_sheet_is_accepted,
};
