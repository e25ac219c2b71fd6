//! The request at the front of a buffer.
#![tactic(auto)]

mod causes;
mod cut;
mod lengths;
mod path;
mod requests;

pub use causes::Cause;
pub use cut::{
    Cut, Look, cuts_agree, look_with, next_call, next_call_with, one_reading, one_stream,
};
