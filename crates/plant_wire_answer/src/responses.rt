//! The HTTP/1.1 frame around a body: the status line, Content-Type and Content-Length.

ghost use Rattle.std.specs.Prelude.{◌≡◌, ◌++◌, IfOk, codes, unwrap_or};
ghost use Rattle.http.specs.StatusCode.{reason_phrase};
ghost use Rattle.plant_types.specs.{Adding.{Adds}, Results.{OnlyMemory}};
ghost use Rattle.plant_wire_answer.specs.Response.{status_line, media_type};
ghost use Rattle.plant_wire_answer.specs.Response as spec;

use http::StatusCode;
use itoa::Buffer;
use plant_types::Fault;
use std::alloc::Global;

/// The type of a body.
#[derive(Clone, Copy, Debug, PartialEq, Eq)]
pub enum Media {
    /// JSON.
    Json,
    /// Plain text.
    Plain,
}

impl Media {
    fn name(self) -> &'static str
        ensures { result.now ≡ media_type self }
    {
        match self {
            Media::Json => "application/json",
            Media::Plain => "text/plain",
        }
    }
}

/// The phrase of a status.
fn phrase(status: StatusCode) -> &'static str
    ensures { result.now ≡ unwrap_or (reason_phrase status) (codes "<unknown status code>") }
{
    status.canonical_reason().unwrap_or("<unknown status code>")
}

#[tactic(auto, unfolding(crate::specs::Response::status_line))]
fn push_status(out: &mut Vec<u8>, status: StatusCode) -> Result<(), Fault>
    ensures value { Adds result out.old.items out.new.items (status_line status) }
    ensures err { OnlyMemory result }
{
    let mut buffer = Buffer::new();
    out.extend_from_slice(buffer.format(status.as_u16()).as_bytes())?;
    out.extend_from_slice(b" ")?;
    Ok(out.extend_from_slice(phrase(status).as_bytes())?)
}

/// How many bytes are allocated for the status line and the header fields.
const HEAD_ROOM: usize = 128;

/// The bytes of a whole answer: its status, the type and the length of its body, and the body.
#[tactic(auto, unfolding(crate::specs::Response::response))]
pub fn response(
    alloc: Global,
    status: StatusCode,
    media: Media,
    body: &[u8],
) -> Result<Vec<u8>, Fault>
    ensures value { IfOk result (λ out. out.items ≡ spec.response status media body.now) }
    ensures err { OnlyMemory result }
{
    let mut buffer = Buffer::new();
    let mut out = Vec::with_capacity(alloc, body.len().saturating_add(HEAD_ROOM))?;
    out.extend_from_slice(b"HTTP/1.1 ")?;
    push_status(&mut out, status)?;
    out.extend_from_slice(b"\r\nContent-Type: ")?;
    out.extend_from_slice(media.name().as_bytes())?;
    out.extend_from_slice(b"\r\nContent-Length: ")?;
    out.extend_from_slice(buffer.format(body.len()).as_bytes())?;
    out.extend_from_slice(b"\r\n\r\n")?;
    out.extend_from_slice(body)?;
    Ok(out)
}
