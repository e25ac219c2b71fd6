//! The answer that is being composed for a connection. Its first bytes are allocated before the call is made, so that a
//! fault can be answered even if memory has run out.

ghost use Rattle.std.specs.Prelude.{◌≡◌, ◌≤◌, ◌<◌, ◌+◌, ◌++◌, [], true, Some, if◌then◌else◌, length, take as first, IfOk, vec_capacity, vec_len};
ghost use Rattle.plant_server_clients.specs.Drafts.{least_room_of_answers};

use plant_wire::{Failed, Outlet};
use std::alloc::{AllocError, Global};

/// How many bytes are allocated for an answer before its call is made: more than the answer to a fault has.
const ROOM: usize = 512;

/// Answers that are still to be sent.
#[derive(Drop)]
pub struct Answers {
    pub text: Vec<u8>,
}

impl Answers {
    /// None yet.
    pub fn new(alloc: Global) -> Answers
        ensures { result.text.items ≡ [] }
    {
        Answers {
            text: Vec::new(alloc),
        }
    }
}

/// An answer that is being composed. If memory runs out for it, it has at least its first 512 bytes.
#[derive(Drop)]
pub(crate) struct Draft {
    text: Vec<u8>,
    failed: bool,
    ghost room: { least_room_of_answers ≤ vec_capacity text },
    ghost full: { failed ≡ true → least_room_of_answers ≤ length text.items },
}

/// Appends as many of these bytes as there is room for, and returns how many.
fn fill(text: &mut Vec<u8>, bytes: &[u8]) -> usize
    ensures within { result ≤ length bytes.now }
    ensures taken { text.new.items ≡ text.old.items ++ first result bytes.now }
    ensures full { result ≡ 0 → 0 < length bytes.now → vec_capacity text.old ≤ vec_len text.old }
    ensures capacity { vec_capacity text.old ≤ vec_capacity text.new }
{
    let room = text.capacity().saturating_sub(text.len());
    let n = room.min(bytes.len());
    match text.extend_from_slice(&bytes[..n]) {
        Ok(()) => n,
        Err(_) => 0,
    }
}

impl Draft {
    /// An empty draft, with memory for its first bytes.
    pub fn new(alloc: Global) -> Result<Draft, AllocError>
        ensures { IfOk result (λ draft. draft.text.items ≡ []) }
    {
        let text = Vec::with_capacity(alloc, ROOM)?;
        Ok(Draft {
            text,
            failed: false,
        })
    }

    /// The answer.
    pub fn into_answers(self) -> Answers
        ensures { result.text.items ≡ self.text.items }
    {
        Answers { text: self.text }
    }
}

impl Outlet for Draft {
    ghost written = { λ s. Some s.text.items };

    ghost failures = { λ s. if s.failed then 1 else 0 };

    fn put(&mut self, bytes: &[u8]) -> Result<usize, Failed> {
        if self.failed {
            return Err(Failed);
        }
        if bytes.is_empty() {
            return Ok(0);
        }
        if self.text.extend_from_slice(bytes).is_ok() {
            return Ok(bytes.len());
        }
        let n = fill(&mut self.text, bytes);
        if n > 0 {
            return Ok(n);
        }
        self.failed = true;
        Err(Failed)
    }
}
