//! Reads the rows of one unit from the tables: all of them, or the part that a call looks at.
#![tactic(auto)]

pub mod part;
mod queries;
mod scope_rows;
pub mod unit;
