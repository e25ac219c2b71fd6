//! The answer to each malformed request, rendered alone.

use plant_wire::{Cause, render_cause};

/// Each cause, and the bytes of its answer.
const ANSWERS: [(Cause, &[u8]); 13] = [
    (
        Cause::HeadSyntax,
        b"HTTP/1.1 400 Bad Request\r\nContent-Type: application/json\r\nContent-Length: 36\r\n\r\n{\"cause\":\"HeadSyntax\",\"malformed\":1}",
    ),
    (
        Cause::HeadTooLong,
        b"HTTP/1.1 400 Bad Request\r\nContent-Type: application/json\r\nContent-Length: 37\r\n\r\n{\"cause\":\"HeadTooLong\",\"malformed\":2}",
    ),
    (
        Cause::LengthWrong,
        b"HTTP/1.1 400 Bad Request\r\nContent-Type: application/json\r\nContent-Length: 37\r\n\r\n{\"cause\":\"LengthWrong\",\"malformed\":3}",
    ),
    (
        Cause::BodyTooLong,
        b"HTTP/1.1 400 Bad Request\r\nContent-Type: application/json\r\nContent-Length: 37\r\n\r\n{\"cause\":\"BodyTooLong\",\"malformed\":4}",
    ),
    (
        Cause::Chunked,
        b"HTTP/1.1 501 Not Implemented\r\nContent-Type: application/json\r\nContent-Length: 33\r\n\r\n{\"cause\":\"Chunked\",\"malformed\":5}",
    ),
    (
        Cause::NoRoute,
        b"HTTP/1.1 404 Not Found\r\nContent-Type: application/json\r\nContent-Length: 33\r\n\r\n{\"cause\":\"NoRoute\",\"malformed\":6}",
    ),
    (
        Cause::BadPerson,
        b"HTTP/1.1 400 Bad Request\r\nContent-Type: application/json\r\nContent-Length: 35\r\n\r\n{\"cause\":\"BadPerson\",\"malformed\":7}",
    ),
    (
        Cause::BadMoment,
        b"HTTP/1.1 400 Bad Request\r\nContent-Type: application/json\r\nContent-Length: 35\r\n\r\n{\"cause\":\"BadMoment\",\"malformed\":8}",
    ),
    (
        Cause::BadPath,
        b"HTTP/1.1 400 Bad Request\r\nContent-Type: application/json\r\nContent-Length: 33\r\n\r\n{\"cause\":\"BadPath\",\"malformed\":9}",
    ),
    (
        Cause::BadBody,
        b"HTTP/1.1 400 Bad Request\r\nContent-Type: application/json\r\nContent-Length: 34\r\n\r\n{\"cause\":\"BadBody\",\"malformed\":10}",
    ),
    (
        Cause::MatrixShape,
        b"HTTP/1.1 400 Bad Request\r\nContent-Type: application/json\r\nContent-Length: 38\r\n\r\n{\"cause\":\"MatrixShape\",\"malformed\":11}",
    ),
    (
        Cause::BandsNotRising,
        b"HTTP/1.1 400 Bad Request\r\nContent-Type: application/json\r\nContent-Length: 41\r\n\r\n{\"cause\":\"BandsNotRising\",\"malformed\":12}",
    ),
    (
        Cause::NotOrdered,
        b"HTTP/1.1 400 Bad Request\r\nContent-Type: application/json\r\nContent-Length: 37\r\n\r\n{\"cause\":\"NotOrdered\",\"malformed\":13}",
    ),
];

#[test]
fn renders_each_cause(rt: HostRuntime) {
    for (cause, wanted) in ANSWERS {
        let text = render_cause(rt.alloc(), cause).expect(&rt, "an answer");
        assert_eq!(rt; text.as_slice(), wanted);
    }
}
