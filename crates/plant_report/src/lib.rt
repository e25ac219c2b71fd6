//! The texts printed of a unit's alarms, shelves and floods of alarms, and the names that stand in them.
#![tactic(auto)]

mod alarms;
mod columns;
mod flood_lines;
mod heading;
mod moments;
mod shelves;

pub use alarms::{alarm_text, cell_name, standing_text, state_name};
pub use flood_lines::flood_text;
pub use moments::write as write_moment;
pub use plant_floods::{Run, floods};
pub use shelves::{mine_text, shelf_text};
