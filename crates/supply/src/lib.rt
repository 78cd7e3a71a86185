// Supplies of slots: which milliseconds of the processor the gateway may use.
#![tactic(auto)]

mod laws;
mod named;
mod pattern;
mod share;
mod supply;
mod timetable;
mod whole;

pub use laws::{fewest_slots_add_up, repeated_rows_are_lawful, sure_slots_are_the_minimum};
pub use named::{Bottom, Named};
pub use share::{Share, ShareRefused};
pub use supply::Supply;
pub use timetable::Timetable;
pub use whole::Whole;
