//! The worked examples as texts, in a notation of their own, and the requests and answers that they stand for.
#![tactic(auto)]

mod events;
mod examples;
mod exchanges;
mod failure;
mod reviews;

pub use events::{
    COUNTED, FLOODS, IMPORTED_TWICE, OVERLAPPED, OVERLAPPING, THREE_ROWS, examples_of_imports,
};
pub use examples::{BASE, Example, GRANTS_FULL, LOOKED_AT, SHELVED, examples_of_calls};
pub use exchanges::{BEGIN, Exchanges, Mark, add_answer, add_request, between, numbered, push_all};
pub use failure::Failure;
pub use reviews::{RECORDED, REVIEWED, STAFFED, examples_of_changes};
