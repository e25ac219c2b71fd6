//! One flood, as the pass over the periods reports it.

/// A flood: its first and last period, counted from 0, the sum of their counts and the greatest of them.
#[derive(Clone, Copy, Debug, PartialEq, Eq)]
pub struct Run {
    pub first: usize,
    pub last: usize,
    pub total: u128,
    pub peak: u32,
}
