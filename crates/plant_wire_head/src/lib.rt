//! The head of a request at the front of a buffer, and its fields.
#![tactic(auto)]

mod fields;
mod heading;

pub use fields::{Lookup, field};
pub use heading::{FieldRoom, Heading, front_of, read_head};
