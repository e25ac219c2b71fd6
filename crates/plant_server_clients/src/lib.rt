//! Many connections at once, on one thread: each is sent the answers to its own requests, and all calls are one run.
#![tactic(auto)]

mod answers;
mod connections;
mod desk;
mod ports;
mod serving;

pub use answers::Answers;
pub use connections::Connection;
pub use ports::{Ports, Ready, Sent, Taken};
pub use serving::{Halted, Plan, serve_clients};
