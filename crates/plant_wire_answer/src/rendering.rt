//! From an answer of the office to the bytes that are sent: picks the status, the media type and the body.

ghost use Rattle.std.specs.Prelude.{◌≡◌, IfOk};
ghost use Rattle.plant_types.specs.Results.{OnlyMemory};
ghost use Rattle.plant_wire_answer.specs.Answers.{answer_bytes, reply_media, reply_body};
ghost use Rattle.plant_wire_answer.specs.Response as spec;

use crate::bodies::{fault_body, imported_body, number_body, status_body, units_body};
use crate::changes::{change_body, record_body};
use crate::refusals::{refusal_body, status_of};
use crate::responses::{Media, response};
use http::StatusCode;
use plant_model::{Answer, Reply};
use plant_report::{alarm_text, flood_text, mine_text, shelf_text, standing_text};
use plant_types::Fault;
use std::alloc::Global;

fn media_of(reply: &Reply) -> Media
    ensures { result ≡ reply_media reply.now }
{
    match reply {
        Reply::Shelves { .. }
        | Reply::Standing { .. }
        | Reply::Alarms { .. }
        | Reply::Floods { .. }
        | Reply::Mine { .. } => Media::Plain,
        Reply::Done
        | Reply::Imported { .. }
        | Reply::Number(_)
        | Reply::Status(_)
        | Reply::RecordOf(_)
        | Reply::ChangeOf(_)
        | Reply::Units(_) => Media::Json,
    }
}

fn reply_body(alloc: Global, reply: &Reply) -> Result<Vec<u8>, Fault>
    ensures value { IfOk result (λ out. out.items ≡ reply_body reply.now) }
    ensures err { OnlyMemory result }
{
    match reply {
        Reply::Done => Ok(Vec::from_slice(alloc, b"{\"done\":true}")?),
        Reply::Imported { fresh, repeated } => imported_body(alloc, *fresh, *repeated),
        Reply::Number(number) => number_body(alloc, *number),
        Reply::Status(row) => status_body(alloc, row),
        Reply::RecordOf(row) => record_body(alloc, row),
        Reply::ChangeOf(row) => change_body(alloc, row),
        Reply::Units(lines) => units_body(alloc, lines.as_slice()),
        Reply::Shelves { unit, at, lines } => shelf_text(alloc, unit, *at, lines.as_slice()),
        Reply::Standing { unit, at, lines } => standing_text(alloc, unit, *at, lines.as_slice()),
        Reply::Alarms { unit, at, lines } => alarm_text(alloc, unit, *at, lines.as_slice()),
        Reply::Floods {
            unit,
            begin,
            until,
            lines,
        } => flood_text(alloc, unit, *begin, *until, lines.as_slice()),
        Reply::Mine { person, at, lines } => mine_text(alloc, person, *at, lines.as_slice()),
    }
}

/// The bytes of an answer. A reply has status 200, a refusal 403 or 409, a fault 503.
pub fn render(alloc: Global, answer: &Answer) -> Result<Vec<u8>, Fault>
    ensures value { IfOk result (λ text. text.items ≡ answer_bytes answer.now) }
    ensures err { OnlyMemory result }
{
    match answer {
        Answer::Reply(reply) => {
            let body = reply_body(alloc, reply)?;
            response(alloc, StatusCode::OK, media_of(reply), &body)
        }
        Answer::Refused(refused) => {
            let body = refusal_body(alloc, refused)?;
            response(alloc, status_of(refused), Media::Json, &body)
        }
        Answer::Fault(fault) => {
            let body = fault_body(alloc, fault)?;
            response(alloc, StatusCode::SERVICE_UNAVAILABLE, Media::Json, &body)
        }
    }
}
