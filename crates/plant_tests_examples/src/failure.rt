//! Why a trial does not pass.

use plant_types::Fault;
use std::alloc::{AllocError, AllocFailed};

/// Why a trial does not pass.
#[derive(Debug, Drop)]
pub enum Failure {
    /// Memory ran out, here or in the books.
    Memory,
    /// The books answered an error other than out of memory.
    Store,
    /// A text is not in the notation of the examples.
    Notation,
    /// A session did not end as expected.
    Ended,
    /// The two keepers hold different rows.
    Rows,
    /// The answer is not the expected one.
    Answers { found: String, wanted: String },
}

impl From<AllocError> for Failure {
    fn from(_error: AllocError) -> Failure {
        Failure::Memory
    }
}

impl<T: Drop> From<AllocFailed<T>> for Failure {
    fn from(_error: AllocFailed<T>) -> Failure {
        Failure::Memory
    }
}

impl From<Fault> for Failure {
    fn from(fault: Fault) -> Failure {
        match fault {
            Fault::Memory => Failure::Memory,
            Fault::Store => Failure::Store,
        }
    }
}
