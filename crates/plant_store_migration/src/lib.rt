//! The migration from schema 1: what its rows become, and the rules by which its calls were judged.
#![tactic(auto)]

mod laws;
mod old_rows;
mod taking;

pub use laws::old_histories;
pub use taking::take_over;
