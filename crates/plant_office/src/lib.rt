//! The office: it serves calls over any books, and answers each of them as the units' histories determine.
#![tactic(auto)]

mod office;
mod starts;

pub use office::{Faults, NO_FAULTS, Office};
pub use plant_books::{Books, Plain};
pub use plant_model::{Answer, laws};
pub use starts::crashes_leave_a_world;
