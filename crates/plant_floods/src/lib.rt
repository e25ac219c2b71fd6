//! Floods of alarms: the periods in which alarms come faster than an operator can manage.
#![tactic(auto)]

mod pass;
mod periods;
mod run;

pub use pass::floods;
pub use periods::{activations, period_counts};
pub use run::Run;
