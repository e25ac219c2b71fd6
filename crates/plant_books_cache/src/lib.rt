//! A keeper of books that puts a cache of units' rows in front of any other keeper.
#![tactic(auto)]

mod cache;
mod cached_books;
mod cached_unit;

pub use cache::Cache;
pub use cached_books::CachedBooks;
pub use cached_unit::CachedUnit;
