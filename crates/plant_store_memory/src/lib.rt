//! Files in memory, for the store of a service that is given no file. They last as long as the program, so a sync has
//! nothing to do.
#![tactic(auto)]

mod file;

pub use file::MemoryFile;
