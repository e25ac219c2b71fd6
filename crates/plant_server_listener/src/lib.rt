//! Connections that are served one after the other, each by a session of its own, and the log of how each ended.
#![tactic(auto)]

mod connections;
mod while_open;

pub use connections::{Listener, serve_connections};
pub use while_open::{Stopped, serve_while_open};
