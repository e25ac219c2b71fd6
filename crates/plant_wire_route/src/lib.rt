//! The routes of the office's requests.
#![tactic(auto)]

mod routes;

pub use routes::Routes;
