//! The answers to malformed requests, as constants, so that writing one needs no memory.

ghost use Rattle.std.specs.Prelude.{◌≡◌, IfOk};
ghost use Rattle.plant_types.specs.Results.{OnlyMemory};
ghost use Rattle.plant_wire.specs.Causes as spec;

use plant_types::Fault;
use plant_wire_call::Cause;
use std::alloc::Global;

/// The bytes of the answer to a malformed request, in a new vector.
pub fn render_cause(alloc: Global, cause: Cause) -> Result<Vec<u8>, Fault>
    ensures value { IfOk result (λ text. text.items ≡ spec.cause_text cause) }
    ensures err { OnlyMemory result }
{
    let mut text = Vec::new(alloc);
    text.extend_from_slice(cause_text(cause))?;
    Ok(text)
}

/// The bytes of the answer to a malformed request.
pub(crate) fn cause_text(cause: Cause) -> &'static [u8]
    ensures { result.now ≡ spec.cause_text cause }
{
    match cause {
        Cause::HeadSyntax =>
            b"HTTP/1.1 400 Bad Request\r\nContent-Type: application/json\r\nContent-Length: 36\r\n\r\n{\"cause\":\"HeadSyntax\",\"malformed\":1}",
        Cause::HeadTooLong =>
            b"HTTP/1.1 400 Bad Request\r\nContent-Type: application/json\r\nContent-Length: 37\r\n\r\n{\"cause\":\"HeadTooLong\",\"malformed\":2}",
        Cause::LengthWrong =>
            b"HTTP/1.1 400 Bad Request\r\nContent-Type: application/json\r\nContent-Length: 37\r\n\r\n{\"cause\":\"LengthWrong\",\"malformed\":3}",
        Cause::BodyTooLong =>
            b"HTTP/1.1 400 Bad Request\r\nContent-Type: application/json\r\nContent-Length: 37\r\n\r\n{\"cause\":\"BodyTooLong\",\"malformed\":4}",
        Cause::Chunked =>
            b"HTTP/1.1 501 Not Implemented\r\nContent-Type: application/json\r\nContent-Length: 33\r\n\r\n{\"cause\":\"Chunked\",\"malformed\":5}",
        Cause::NoRoute =>
            b"HTTP/1.1 404 Not Found\r\nContent-Type: application/json\r\nContent-Length: 33\r\n\r\n{\"cause\":\"NoRoute\",\"malformed\":6}",
        Cause::BadPerson =>
            b"HTTP/1.1 400 Bad Request\r\nContent-Type: application/json\r\nContent-Length: 35\r\n\r\n{\"cause\":\"BadPerson\",\"malformed\":7}",
        Cause::BadMoment =>
            b"HTTP/1.1 400 Bad Request\r\nContent-Type: application/json\r\nContent-Length: 35\r\n\r\n{\"cause\":\"BadMoment\",\"malformed\":8}",
        Cause::BadPath =>
            b"HTTP/1.1 400 Bad Request\r\nContent-Type: application/json\r\nContent-Length: 33\r\n\r\n{\"cause\":\"BadPath\",\"malformed\":9}",
        Cause::BadBody =>
            b"HTTP/1.1 400 Bad Request\r\nContent-Type: application/json\r\nContent-Length: 34\r\n\r\n{\"cause\":\"BadBody\",\"malformed\":10}",
        Cause::MatrixShape =>
            b"HTTP/1.1 400 Bad Request\r\nContent-Type: application/json\r\nContent-Length: 38\r\n\r\n{\"cause\":\"MatrixShape\",\"malformed\":11}",
        Cause::BandsNotRising =>
            b"HTTP/1.1 400 Bad Request\r\nContent-Type: application/json\r\nContent-Length: 41\r\n\r\n{\"cause\":\"BandsNotRising\",\"malformed\":12}",
        Cause::NotOrdered =>
            b"HTTP/1.1 400 Bad Request\r\nContent-Type: application/json\r\nContent-Length: 37\r\n\r\n{\"cause\":\"NotOrdered\",\"malformed\":13}",
    }
}
