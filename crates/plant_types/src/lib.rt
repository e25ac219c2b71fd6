//! The types on which all other crates are built: names and other texts, moments, lengths of time, roles, lists,
//! sorted rows, faults and the limits of the office.
#![tactic(auto)]

mod civil;
mod fault;
mod keyed;
pub mod limits;
mod list;
mod moment;
mod quantities;
mod role;
mod sorted;
mod text;
mod try_copy;

pub use fault::Fault;
pub use keyed::Keyed;
pub use list::List;
pub use moment::Moment;
pub use quantities::{Quota, Seconds};
pub use role::{Role, Tenure};
pub use sorted::Sorted;
pub use text::{
    Alphabet, Person, PersonBytes, Tag, TagBytes, Text, UnitCode, UnitCodeBytes, Words, WordsBytes,
};
pub use try_copy::{TryCopy, copy_all};
