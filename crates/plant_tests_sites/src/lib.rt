//! What the trials of whole sessions share: sessions over an office of their own, the calls of a session in one run,
//! and the comparison of what two keepers hold. What does not pass is an `Err`: a test ends there, nothing here does.
#![tactic(auto)]

mod keepers;
mod runs;
mod sessions;

pub use keepers::{are_left_alike, check_keepers, check_rows, hold_alike};
pub use runs::{
    Calls, alike, all_alike, bytes_of, call_of, calls_of, check_example, check_run, run_all, served,
};
pub use sessions::{
    after, cached, check_answers, check_session, lists, replays_on, root, tables, text,
};
