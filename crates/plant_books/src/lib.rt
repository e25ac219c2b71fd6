//! The books that keep the rows of all units: what they contain, the trait of their keepers, and a keeper in lists.
#![tactic(auto)]

mod asking;
mod books;
mod changes;
mod found;
mod grants;
mod numbered;
mod opened;
mod parts;
mod plain;
mod scope_numbers;

pub use asking::{
    Wanted, WantedAlarms, WantedEvents, is_crowded, wanted_alarms, wanted_change, wanted_events,
    wanted_records, wanted_shelves, wants_all_grants, wants_matrix, wants_sources,
};
pub use books::{Books, MineRow, MineUnit};
pub use changes::{after_changes, puts_event};
pub use found::shelved_alarms;
pub use numbered::Numbered;
pub use opened::push_shelves;
pub use parts::{events_asked, part_of, part_of_grants, rows_but_history};
pub use plain::{Plain, count_after};
pub use scope_numbers::{change_numbers, matrix_numbers};
