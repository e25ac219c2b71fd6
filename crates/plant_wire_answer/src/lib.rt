//! The bytes of an answer: a head of HTTP/1.1 and a body of JSON or plain text.
#![tactic(auto)]

mod bodies;
mod changes;
mod json;
mod names;
mod refusals;
mod rendering;
mod responses;

pub use json::push_quoted;
pub use rendering::render;
pub use responses::{Media, response};
