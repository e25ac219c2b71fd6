//! New databases in two files: the size of their pages, the length of their log, and what a crash leaves of them while
//! they are made.
#![tactic(auto)]

mod creations;

pub use creations::{create_over, new_page, options_of};
pub use sqlite_pager::PageSize;
