//! Cuts the first request off a buffer of received bytes. The request may be incomplete, malformed, or such that its
//! end cannot be determined.

ghost use Rattle.std.specs.Prelude.{◌≡◌, ◌≢◌, ◌⊎◌, ◌<◌, ◌≤◌, ◌++◌, ℕ, List, length};
ghost use Rattle.httparse.specs.{Grammar.{RequestHead}, Spans.{IsRequestAt, IsRequestWithin}};
ghost use Rattle.plant_wire_call.specs.Cut.{Shows, IsCutOf, IsLengthOf, WaitsBelow};
ghost use Rattle.plant_wire_call.specs.Front.{Item, Front, waits, answer_to, StandsAtFront, IsUndecided, IsStream, OpensSomewhere};

use crate::causes::{CallError, Cause};
use crate::lengths::body_length;
use crate::requests::{Fields, call_in};
use httparse::spans::{HeaderSpan, RequestSpans};
use plant_model::Call;
use plant_types::limits::MAX_HEAD;
use plant_wire_head::{FieldRoom, Heading, front_of, read_head};
use plant_wire_route::Routes;
use std::alloc::Global;

/// What stands at the front of a buffer.
#[derive(Drop)]
pub enum Cut {
    /// An incomplete request; more bytes may complete it.
    More,
    /// A call, with the number of bytes of its request.
    Call(Call, usize),
    /// A malformed request, with the number of its bytes.
    Malformed(Cause, usize),
    /// The request's end cannot be determined; the stream is unusable.
    Broken(Cause),
    /// Out of memory.
    Fault,
}

/// What stands at the front of a buffer, and how many bytes there must be before another look is worth it.
#[derive(Drop)]
pub struct Look {
    /// What stands there.
    pub cut: Cut,
    /// If the head is whole and the body is not, the request's length in bytes: with fewer it stays incomplete.
    /// Otherwise 0.
    pub wanted: usize,
}

fn look_at(
    alloc: Global,
    routes: &Routes,
    front: &[u8],
    headers: &[HeaderSpan],
    spans: RequestSpans,
    after: &[u8],
) -> Look
    requires within { IsRequestWithin front.now headers.now spans }
    requires short { length front.now ≤ MAX_HEAD }
    ensures shows { (head : RequestHead) → IsRequestAt front.now headers.now spans head
        → Shows result.cut (answer_to head after.now) }
    ensures wants { (head : RequestHead) → IsRequestAt front.now headers.now spans head
        → 0 < result.wanted → IsLengthOf head result.wanted }
{
    let fields = &headers[..spans.headers];
    let count = match body_length(front, fields) {
        Ok(count) => count,
        Err(cause) => {
            return Look {
                cut: Cut::Broken(cause),
                wanted: 0,
            };
        }
    };
    let length = spans.len + count;
    if after.len() < count {
        return Look {
            cut: Cut::More,
            wanted: length,
        };
    }
    match call_in(
        alloc,
        routes,
        spans.method.of(front),
        spans.path.of(front),
        Fields {
            front,
            headers: fields,
        },
        &after[..count],
    ) {
        Ok(call) => Look {
            cut: Cut::Call(call, length),
            wanted: 0,
        },
        Err(CallError::Because(cause)) => Look {
            cut: Cut::Malformed(cause, length),
            wanted: 0,
        },
        Err(CallError::Memory) => Look {
            cut: Cut::Fault,
            wanted: 0,
        },
    }
}

/// The request at the front of `bytes`, and how many bytes there must be before another look is worth it, with routes
/// and space for fields that were made before.
pub fn look_with(alloc: Global, routes: &Routes, room: &mut FieldRoom, bytes: &[u8]) -> Look
    ensures cut { IsCutOf bytes.now result.cut }
    ensures wanted { WaitsBelow bytes.now result.wanted }
{
    match read_head(bytes, room) {
        Heading::Waiting => Look {
            cut: Cut::More,
            wanted: 0,
        },
        Heading::Malformed => Look {
            cut: Cut::Broken(Cause::HeadSyntax),
            wanted: 0,
        },
        Heading::TooLong => Look {
            cut: Cut::Broken(Cause::HeadTooLong),
            wanted: 0,
        },
        Heading::Whole(spans) => look_at(
            alloc,
            routes,
            front_of(bytes),
            room.spans.as_slice(),
            spans,
            &bytes[spans.len..],
        ),
    }
}

/// The request at the front of `bytes`, with routes and space for fields that were made before.
pub fn next_call_with(alloc: Global, routes: &Routes, room: &mut FieldRoom, bytes: &[u8]) -> Cut
    ensures { IsCutOf bytes.now result }
{
    look_with(alloc, routes, room, bytes).cut
}

/// The request at the front of `bytes`. A malformed request gets the first cause that applies, once its body is whole;
/// a cause that leaves the end of the request unknown is returned at once.
pub fn next_call(alloc: Global, bytes: &[u8]) -> Cut
    ensures { IsCutOf bytes.now result }
{
    let Ok(routes) = Routes::new(alloc) else {
        return Cut::Fault;
    };
    let Ok(mut room) = FieldRoom::new(alloc) else {
        return Cut::Fault;
    };
    next_call_with(alloc, &routes, &mut room, bytes)
}

/// What stands at a front is unique, except if no continuation is a head and the target is still being read.
pub fn one_reading()
    ensures { (bytes : List ℕ) (f g : Front) → StandsAtFront bytes f → StandsAtFront bytes g
        → (f ≡ g) ⊎ IsUndecided bytes }
{}

/// The reading of a stream is unique, except if such a front stands in it.
pub fn one_stream()
    ensures { (bytes : List ℕ) (xs ys : List Item) (r q : List ℕ) → IsStream bytes xs r
        → IsStream bytes ys q → ((xs ≡ ys) × (r ≡ q)) ⊎ OpensSomewhere bytes }
{}

/// More bytes don't change what stands at the front, unless it is incomplete.
pub fn cuts_agree()
    ensures { (bytes more : List ℕ) (f : Front) → f ≢ waits → StandsAtFront bytes f
        → StandsAtFront (bytes ++ more) f }
{}
