//! Sessions: requests that come in as bytes, and the answers that go out as bytes.
#![tactic(auto)]

mod causes;
mod faults;
mod put;
mod reads;
mod std_streams;
mod step;
mod streams;

pub use causes::render_cause;
pub use plant_wire_answer::render;
pub use plant_wire_call::{
    Cause, Cut, cuts_agree, next_call, next_call_with, one_reading, one_stream,
};
pub use put::bytes_from;
pub use reads::{CHUNK, End, drop_front, may_send, session};
pub use std_streams::{FromRead, ToWrite};
pub use step::{Parser, Step, Stop, answer_next};
pub use streams::{Failed, Inlet, Outlet};
