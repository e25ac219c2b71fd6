//! The bodies of requests: one JSON object each, from which the named members are read.
#![tactic(auto)]

mod bodies;
mod lists;
mod members;
mod proposals;

pub use bodies::{
    Granting, Opening, Registration, TimedShelving, Withdrawal, read_granting, read_opening,
    read_reason, read_registration, read_timed_shelving, read_withdrawal,
};
pub use members::{BodyError, Unfit};
pub use proposals::read_proposal;
