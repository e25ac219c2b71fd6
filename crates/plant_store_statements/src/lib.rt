//! The SQL statements over the tables, as typed functions. All units share one set of tables, in which each row has its
//! unit's code. Each statement is a fixed text.
#![tactic(auto)]

pub mod make;
pub mod memory;
pub mod read;
pub mod stored;
pub mod texts;
pub mod write;
