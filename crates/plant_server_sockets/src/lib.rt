//! The sockets of many connections of a port, by epoll.
#![tactic(auto)]

mod clients;
mod descriptors;
mod sockets;

pub use descriptors::has_few_descriptors;
pub use sockets::{Limits, Sockets};
