//! Reads a request's head with httparse, within a limit of its length. It distinguishes a head that is not complete yet
//! from one that is malformed or too long.

ghost use Rattle.std.specs.Prelude.{◌≡◌, ◌≤◌, length};
ghost use Rattle.plant_wire_head.specs.{Head.{front, IsHeading}, declared.heading.TheConstants.{FIELD_ROOM}};
ghost use Rattle.plant_types.specs.Results.{OnlyMemory};

use httparse::Status;
use httparse::spans::{EMPTY_HEADER_SPAN, HeaderSpan, RequestSpans, parse_request};
use plant_types::Fault;
use plant_types::limits::MAX_HEAD;
use std::alloc::Global;

/// More fields than `MAX_HEAD` bytes can hold, since a field takes three bytes at least.
const FIELD_ROOM: usize = 5461;

/// Space for the fields of any head, allocated once and used for one head after another.
#[derive(Drop)]
pub struct FieldRoom {
    pub spans: Vec<HeaderSpan>,
    ghost enough: { FIELD_ROOM ≤ length spans.items },
}

impl FieldRoom {
    /// Allocates it.
    pub fn new(alloc: Global) -> Result<FieldRoom, Fault>
        ensures { OnlyMemory result }
    {
        Ok(FieldRoom {
            spans: vec![in alloc; EMPTY_HEADER_SPAN; FIELD_ROOM]?,
        })
    }
}

/// What stands at the front of a buffer, up to the end of a head.
#[derive(Clone, Copy, Debug)]
pub enum Heading {
    /// An incomplete head; more bytes may complete it.
    Waiting,
    /// Bytes that cannot become a head.
    Malformed,
    /// No head ends within the first `MAX_HEAD` bytes.
    TooLong,
    /// A whole head, with the positions of its parts.
    Whole(RequestSpans),
}

/// The bytes that may hold the head.
pub fn front_of(bytes: &[u8]) -> &[u8]
    ensures value { result.now ≡ front bytes.now }
    ensures short { length result.now ≤ MAX_HEAD }
    ensures within { length result.now ≤ length bytes.now }
{
    if bytes.len() < MAX_HEAD {
        bytes
    } else {
        &bytes[..MAX_HEAD]
    }
}

/// Reads the head at the front of `bytes`. If it is whole, its fields are in `room`.
pub fn read_head(bytes: &[u8], room: &mut FieldRoom) -> Heading
    ensures { IsHeading bytes.now room.new.spans.items result }
{
    match parse_request(front_of(bytes), room.spans.as_mut_slice()) {
        Ok(Status::Complete(spans)) => Heading::Whole(spans),
        Ok(Status::Partial) => {
            if bytes.len() < MAX_HEAD {
                Heading::Waiting
            } else {
                Heading::TooLong
            }
        }
        Err(_) => Heading::Malformed,
    }
}
