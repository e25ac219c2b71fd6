//! The length of a request's body, from Content-Length. Anything that leaves the length unclear, such as a repeated
//! field or a Transfer-Encoding, is an error.

ghost use Rattle.std.specs.{Char.{is_ascii_digit}, List.{list_all}, Prelude.{◌≡◌, ◌≤◌, ◌+◌, IfOk, IsTrue, min, map, length, All}};
ghost use Rattle.std.specs.Str.Parse.{digits_value};
ghost use Rattle.httparse.specs.Spans.{header_bytes, IsHeaderWithin};
ghost use Rattle.plant_wire_call.specs.Lengths.{is_numeral, length_in, body_length_in};

use crate::causes::Cause;
use httparse::spans::HeaderSpan;
use plant_types::limits::MAX_BODY;
use plant_wire_head::{Lookup, field};

fn has_digits(text: &[u8]) -> bool
    ensures { result ≡ list_all is_ascii_digit text.now }
{
    text.iter().all(|b| b.is_ascii_digit())
}

/// Whether the text is a number in digits.
pub(crate) fn is_numeral(text: &[u8]) -> bool
    ensures { result ≡ is_numeral text.now }
{
    !text.is_empty() && has_digits(text)
}

/// The number, or `MAX_BODY + 1` if it is greater, so that it can't overflow.
#[tactic(auto, using(crate::proofs::Digits::capped_push))]
pub(crate) fn capped_value(text: &[u8]) -> usize
    requires { IsTrue (list_all is_ascii_digit text.now) }
    ensures { result ≡ min (digits_value 10 text.now) (MAX_BODY + 1) }
{
    let mut value = 0;
    for b in text {
        value = (value * 10 + (*b - b'0') as usize).min(MAX_BODY + 1);
    }
    value
}

fn length_in(text: &[u8]) -> Result<usize, Cause>
    ensures { result ≡ length_in text.now }
{
    if !is_numeral(text) {
        return Err(Cause::LengthWrong);
    }
    let value = capped_value(text);
    if value > MAX_BODY {
        Err(Cause::BodyTooLong)
    } else {
        Ok(value)
    }
}

/// How many bytes of body follow a head with these fields.
pub(crate) fn body_length(front: &[u8], headers: &[HeaderSpan]) -> Result<usize, Cause>
    requires { All (IsHeaderWithin (length front.now)) headers.now }
    ensures value { result ≡ body_length_in (map (header_bytes front.now) headers.now) }
    ensures bound { IfOk result (λ n. n ≤ MAX_BODY) }
{
    let length = match field(front, headers, b"content-length") {
        Lookup::Missing => 0,
        Lookup::Once(text) => length_in(text)?,
        Lookup::Repeated => return Err(Cause::LengthWrong),
    };
    match field(front, headers, b"transfer-encoding") {
        Lookup::Missing => Ok(length),
        _ => Err(Cause::Chunked),
    }
}
