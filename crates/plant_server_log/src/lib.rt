//! What the log and the program write of connections and faults: how a connection ended, and a line for each kind of
//! fault. Both ways to serve write these, one client after the other and many at once.
#![tactic(auto)]

mod texts;

pub use texts::{end_name, say, say_end, say_faults};
