//! What the words of the program's command line ask for.
#![tactic(auto)]

mod words;

pub use words::{CommandLine, CommandLineError, Service, Task, command_line_of};
