//! The books of an office in the tables of a SQL database: one set of tables for all units, each row under its unit's
//! code. Each statement is a fixed text, and one unit's calls look at that unit's rows alone.
#![tactic(auto)]

mod migration;
mod mine;
mod opening;
mod reopening;
mod shelves;
mod tables;
mod texts;

pub use migration::{MigrateRefused, migrate};
pub use opening::note_settled;
pub use reopening::reopen;
pub use tables::{StoreFault, Tables, Unopened};
