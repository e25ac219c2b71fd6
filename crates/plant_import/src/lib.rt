//! Import files: reading their rows or first fault, and what they add to the kept events.
#![tactic(auto)]

mod bad_file;
mod beside;
mod event_numbers;
mod fields;
pub mod laws;
mod merging;
mod needs;
mod reading;
mod records;
mod relation;

pub use bad_file::{BadFile, Cause};
pub use event_numbers::{count_new, events_after, in_rising_number, put_events};
pub use merging::{Merged, merge};
pub use needs::{has_late, needed};
pub use reading::{FileRead, read_file};
