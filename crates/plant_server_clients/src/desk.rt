//! What reading and answering need for any connection: what requests are parsed with, and a read buffer. It is
//! allocated once, before the first connection.

ghost use Rattle.std.specs.Prelude.{◌≤◌, length};
ghost use Rattle.plant_wire.specs.Limits.{least_room};

use plant_types::Fault;
use plant_wire::{CHUNK, Parser};
use std::alloc::Global;

/// What reading and answering need, allocated once for all connections.
#[derive(Drop)]
pub(crate) struct Desk {
    pub alloc: Global,
    pub parser: Parser,
    /// The read buffer.
    pub chunk: Vec<u8>,
    ghost offers: { least_room ≤ length chunk.items },
}

impl Desk {
    /// Allocates it.
    pub fn new(alloc: Global) -> Result<Desk, Fault> {
        Ok(Desk {
            alloc,
            parser: Parser::new(alloc)?,
            chunk: vec![in alloc; 0u8; CHUNK]?,
        })
    }
}
