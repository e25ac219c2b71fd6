//! The tables that all units share, and the conversion of typed rows to columns and back.
//!
//! Everything that is particular to a table is its shape in `specs/Tables`. To add a table, add a `TableKind`, a shape,
//! a function in `encode` and an implementation of `Shown` in `decode`.
#![tactic(auto)]

pub mod codes;
pub mod decode;
pub mod encode;
pub mod tables;
