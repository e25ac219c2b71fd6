//! Reads the segments of a request's path: the unit, the tag of an alarm, the number of a change, and the ends of a
//! range of time.

ghost use Rattle.std.specs.Prelude.{◌≡◌};
ghost use Rattle.plant_wire_call.specs.Causes.{ReadsAs};
ghost use Rattle.plant_wire_call.specs.Path.{until_slash, after_slash, segment, unit_in, tag_in, moment_at, begin_in, until_in, is_change_number, change_number_of, change_number_in};

use crate::causes::{CallError, Cause};
use crate::lengths::{capped_value, is_numeral};
use plant_types::{Moment, Tag, UnitCode};
use std::alloc::Global;

/// The bytes before the first slash, and those after it.
fn split_at_slash(path: &[u8]) -> (&[u8], &[u8])
    ensures before { result.0.now ≡ until_slash path.now }
    ensures after { result.1.now ≡ after_slash path.now }
{
    for (i, b) in path.iter().enumerate() {
        if *b == b'/' {
            return (&path[..i], &path[i + 1..]);
        }
    }
    (path, &path[path.len()..])
}

fn segment(path: &[u8], n: usize) -> &[u8]
    ensures { result.now ≡ segment n path.now }
{
    let mut rest = path;
    for _slash in 0..n {
        rest = split_at_slash(rest).1;
    }
    split_at_slash(rest).0
}

/// The unit that the path names.
pub(crate) fn unit_in(alloc: Global, path: &[u8]) -> Result<UnitCode, CallError>
    ensures { ReadsAs result (unit_in path.now) }
{
    UnitCode::read(alloc, segment(path, 2))?.ok_or(CallError::Because(Cause::BadPath))
}

/// The tag that the path names.
pub(crate) fn tag_in(alloc: Global, path: &[u8]) -> Result<Tag, CallError>
    ensures { ReadsAs result (tag_in path.now) }
{
    Tag::read(alloc, segment(path, 4))?.ok_or(CallError::Because(Cause::BadPath))
}

fn moment_at(path: &[u8], n: usize) -> Result<Moment, CallError>
    ensures { ReadsAs result (moment_at n path.now) }
{
    Moment::read(segment(path, n)).ok_or(CallError::Because(Cause::BadPath))
}

/// The moment with which the range in the path begins.
pub(crate) fn begin_in(path: &[u8]) -> Result<Moment, CallError>
    ensures { ReadsAs result (begin_in path.now) }
{
    moment_at(path, 4)
}

/// The moment before which the range in the path ends.
pub(crate) fn until_in(path: &[u8]) -> Result<Moment, CallError>
    ensures { ReadsAs result (until_in path.now) }
{
    moment_at(path, 5)
}

fn is_change_number(text: &[u8]) -> bool
    ensures { result ≡ is_change_number text.now }
{
    is_numeral(text) && text.len() <= 5 && text[0] != b'0'
}

/// The number of a change: 1 to 5 digits, the first not 0.
#[tactic(auto, using(crate::proofs::Digits::number_told))]
fn change_number_of(text: &[u8]) -> Option<u32>
    ensures { result ≡ change_number_of text.now }
{
    if is_change_number(text) {
        Some(capped_value(text) as u32)
    } else {
        None
    }
}

/// The number of a change that the path names.
pub(crate) fn change_number_in(path: &[u8]) -> Result<u32, CallError>
    ensures { ReadsAs result (change_number_in path.now) }
{
    change_number_of(segment(path, 4)).ok_or(CallError::Because(Cause::BadPath))
}
