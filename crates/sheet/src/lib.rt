// Sheets: the bytes by which a roster travels from office to office, read, written and reported on.
#![tactic(auto)]

mod digits;
mod draft;
mod reading;
mod records;
mod reporting;
mod sheet_refusal;
mod supplies;
mod writing;

pub use reading::{from_bytes, read};
pub use reporting::report;
pub use sheet_refusal::SheetRefusal;
pub use supplies::supply_of;
pub use writing::write;
