//! Reads a request whose bytes are complete as a call: who calls, at which moment, and what is asked for.

ghost use Rattle.std.specs.Prelude.{◌≡◌, ◌≤◌, codes, map, length, All, ok_or, Result};
ghost use Rattle.httparse.specs.Spans.{header_bytes, IsHeaderWithin};
ghost use Rattle.plant_wire_head.specs.Fields.{values_named};
ghost use Rattle.plant_wire_route.specs.Routes.{route_of};
ghost use Rattle.plant_wire_body.specs.declared.members.Unfit.{Unfit};
ghost use Rattle.plant_wire_call.specs.{Causes.{ReadsAs, of_body}, Path.{change_number_in, tag_in}, Reading.{call_in, floods_in, moment_said, of_one, person_said, request_in}};
ghost use Rattle.plant_wire_call.specs.declared.causes.Cause.TheVariants.{NoRoute};
ghost use Rattle.plant_model.specs.declared.call.Request.TheVariants as request;
ghost use Rattle.plant_model.specs.declared.kinds.CallKind.TheVariants as kind;
ghost use Rattle.plant_wire_body.specs.Members as body;

use crate::causes::{CallError, Cause, body_error};
use crate::path::{begin_in, change_number_in, tag_in, unit_in, until_in};
use httparse::spans::HeaderSpan;
use plant_import::read_file;
use plant_model::{Call, CallKind, Request};
use plant_types::{Moment, Person};
use plant_wire_body::{
    BodyError, Granting, Opening, Registration, TimedShelving, Withdrawal, read_granting,
    read_opening, read_proposal, read_reason, read_registration, read_timed_shelving,
    read_withdrawal,
};
use plant_wire_head::{Lookup, field};
use plant_wire_route::Routes;
use std::alloc::Global;

/// Turns the error of reading a body into that of a call.
fn of_body<T>(read: Result<T, BodyError>) -> Result<T, CallError>
    ensures { (given : Result T Unfit) → body.ReadsAs read given → ReadsAs result (of_body given) }
{
    match read {
        Ok(value) => Ok(value),
        Err(e) => Err(body_error(e)),
    }
}

/// The fields of a head.
#[derive(Clone, Copy)]
pub(crate) struct Fields<'a> {
    /// The bytes that hold the head.
    pub front: &'a [u8],
    /// Where each field stands in them.
    pub headers: &'a [HeaderSpan],
}

fn person_in(alloc: Global, fields: Fields<'_>) -> Result<Person, CallError>
    requires { All (IsHeaderWithin (length fields.front.now)) fields.headers.now }
    ensures { ReadsAs result (person_said
        (values_named (codes "x-person") (map (header_bytes fields.entry.front.now) fields.entry.headers.now))) }
{
    let Lookup::Once(text) = field(fields.front, fields.headers, b"x-person") else {
        return Err(CallError::Because(Cause::BadPerson));
    };
    Person::read(alloc, text)?.ok_or(CallError::Because(Cause::BadPerson))
}

fn moment_in(fields: Fields<'_>) -> Result<Moment, CallError>
    requires { All (IsHeaderWithin (length fields.front.now)) fields.headers.now }
    ensures { ReadsAs result (moment_said
        (values_named (codes "x-moment") (map (header_bytes fields.entry.front.now) fields.entry.headers.now))) }
{
    let Lookup::Once(text) = field(fields.front, fields.headers, b"x-moment") else {
        return Err(CallError::Because(Cause::BadMoment));
    };
    Moment::read(text).ok_or(CallError::Because(Cause::BadMoment))
}

#[tactic(auto, unfolding(crate::specs::Reading::request_in))]
fn open_unit(alloc: Global, path: &[u8], body: &[u8]) -> Result<Request, CallError>
    ensures { ReadsAs result (request_in kind.OpenUnit path.now body.now) }
{
    let unit = unit_in(alloc, path)?;
    let Opening {
        steward,
        matrix,
        quota,
    } = of_body(read_opening(alloc, body))?;
    Ok(Request::OpenUnit {
        unit,
        steward,
        matrix,
        quota,
    })
}

#[tactic(auto, unfolding(crate::specs::Reading::request_in))]
fn grant(alloc: Global, path: &[u8], body: &[u8]) -> Result<Request, CallError>
    ensures { ReadsAs result (request_in kind.Grant path.now body.now) }
{
    let unit = unit_in(alloc, path)?;
    let Granting { person, tenure } = of_body(read_granting(alloc, body))?;
    Ok(Request::Grant {
        unit,
        person,
        tenure,
    })
}

#[tactic(auto, unfolding(crate::specs::Reading::request_in))]
fn withdraw(alloc: Global, path: &[u8], body: &[u8]) -> Result<Request, CallError>
    ensures { ReadsAs result (request_in kind.Withdraw path.now body.now) }
{
    let unit = unit_in(alloc, path)?;
    let Withdrawal { person, role } = of_body(read_withdrawal(alloc, body))?;
    Ok(Request::Withdraw { unit, person, role })
}

#[tactic(auto, unfolding(crate::specs::Reading::request_in))]
fn register(alloc: Global, path: &[u8], body: &[u8]) -> Result<Request, CallError>
    ensures { ReadsAs result (request_in kind.Register path.now body.now) }
{
    let unit = unit_in(alloc, path)?;
    let Registration { tag, latching, max } = of_body(read_registration(alloc, body))?;
    Ok(Request::Register {
        unit,
        tag,
        latching,
        max,
    })
}

#[tactic(auto, unfolding(crate::specs::Reading::request_in))]
fn timed_shelve(alloc: Global, path: &[u8], body: &[u8]) -> Result<Request, CallError>
    ensures { ReadsAs result (request_in kind.TimedShelve path.now body.now) }
{
    let unit = unit_in(alloc, path)?;
    let tag = tag_in(alloc, path)?;
    let TimedShelving { seconds, words } = of_body(read_timed_shelving(alloc, body))?;
    Ok(Request::TimedShelve {
        unit,
        tag,
        seconds,
        words,
    })
}

/// A faulty file is a call as well: the office reports the fault.
#[tactic(auto, unfolding(crate::specs::Reading::request_in))]
fn import(alloc: Global, path: &[u8], body: &[u8]) -> Result<Request, CallError>
    ensures { ReadsAs result (request_in kind.Import path.now body.now) }
{
    let unit = unit_in(alloc, path)?;
    let file = read_file(alloc, body)?;
    Ok(Request::Import { unit, file })
}

#[tactic(auto, unfolding(crate::specs::Reading::request_in))]
fn one_shot_shelve(alloc: Global, path: &[u8], body: &[u8]) -> Result<Request, CallError>
    ensures { ReadsAs result (request_in kind.OneShotShelve path.now body.now) }
{
    let unit = unit_in(alloc, path)?;
    let tag = tag_in(alloc, path)?;
    let words = of_body(read_reason(alloc, body))?;
    Ok(Request::OneShotShelve { unit, tag, words })
}

#[tactic(auto, unfolding(crate::specs::Reading::request_in))]
fn unshelve(alloc: Global, path: &[u8]) -> Result<Request, CallError>
    ensures { ReadsAs result (of_one tag_in request.Unshelve path.now) }
{
    let unit = unit_in(alloc, path)?;
    let tag = tag_in(alloc, path)?;
    Ok(Request::Unshelve { unit, tag })
}

#[tactic(auto, unfolding(crate::specs::Reading::request_in))]
fn remove_from_service(alloc: Global, path: &[u8], body: &[u8]) -> Result<Request, CallError>
    ensures { ReadsAs result (request_in kind.RemoveFromService path.now body.now) }
{
    let unit = unit_in(alloc, path)?;
    let tag = tag_in(alloc, path)?;
    let words = of_body(read_reason(alloc, body))?;
    Ok(Request::RemoveFromService { unit, tag, words })
}

#[tactic(auto, unfolding(crate::specs::Reading::request_in))]
fn place_in_service(alloc: Global, path: &[u8]) -> Result<Request, CallError>
    ensures { ReadsAs result (of_one tag_in request.PlaceInService path.now) }
{
    let unit = unit_in(alloc, path)?;
    let tag = tag_in(alloc, path)?;
    Ok(Request::PlaceInService { unit, tag })
}

#[tactic(auto, unfolding(crate::specs::Reading::request_in))]
fn propose(alloc: Global, path: &[u8], body: &[u8]) -> Result<Request, CallError>
    ensures { ReadsAs result (request_in kind.Propose path.now body.now) }
{
    let unit = unit_in(alloc, path)?;
    let proposal = of_body(read_proposal(alloc, body))?;
    Ok(Request::Propose { unit, proposal })
}

#[tactic(auto, unfolding(crate::specs::Reading::request_in))]
fn withdraw_change(alloc: Global, path: &[u8]) -> Result<Request, CallError>
    ensures { ReadsAs result (of_one change_number_in request.WithdrawChange path.now) }
{
    let unit = unit_in(alloc, path)?;
    let number = change_number_in(path)?;
    Ok(Request::WithdrawChange { unit, number })
}

#[tactic(auto, unfolding(crate::specs::Reading::request_in))]
fn approve(alloc: Global, path: &[u8]) -> Result<Request, CallError>
    ensures { ReadsAs result (of_one change_number_in request.Approve path.now) }
{
    let unit = unit_in(alloc, path)?;
    let number = change_number_in(path)?;
    Ok(Request::Approve { unit, number })
}

#[tactic(auto, unfolding(crate::specs::Reading::request_in))]
fn reject(alloc: Global, path: &[u8]) -> Result<Request, CallError>
    ensures { ReadsAs result (of_one change_number_in request.Reject path.now) }
{
    let unit = unit_in(alloc, path)?;
    let number = change_number_in(path)?;
    Ok(Request::Reject { unit, number })
}

#[tactic(auto, unfolding(crate::specs::Reading::request_in))]
fn status(alloc: Global, path: &[u8]) -> Result<Request, CallError>
    ensures { ReadsAs result (of_one tag_in request.Status path.now) }
{
    let unit = unit_in(alloc, path)?;
    let tag = tag_in(alloc, path)?;
    Ok(Request::Status { unit, tag })
}

#[tactic(auto, unfolding(crate::specs::Reading::request_in))]
fn record_of(alloc: Global, path: &[u8]) -> Result<Request, CallError>
    ensures { ReadsAs result (of_one tag_in request.RecordOf path.now) }
{
    let unit = unit_in(alloc, path)?;
    let tag = tag_in(alloc, path)?;
    Ok(Request::RecordOf { unit, tag })
}

#[tactic(auto, unfolding(crate::specs::Reading::request_in))]
fn change_of(alloc: Global, path: &[u8]) -> Result<Request, CallError>
    ensures { ReadsAs result (of_one change_number_in request.ChangeOf path.now) }
{
    let unit = unit_in(alloc, path)?;
    let number = change_number_in(path)?;
    Ok(Request::ChangeOf { unit, number })
}

#[tactic(auto, unfolding(crate::specs::Reading::request_in))]
fn floods(alloc: Global, path: &[u8]) -> Result<Request, CallError>
    ensures { ReadsAs result (floods_in path.now) }
{
    let unit = unit_in(alloc, path)?;
    let begin = begin_in(path)?;
    let until = until_in(path)?;
    Ok(Request::Floods { unit, begin, until })
}

#[tactic(auto, unfolding(crate::specs::Reading::request_in))]
fn request_in(alloc: Global, kind: CallKind, path: &[u8], body: &[u8]) -> Result<Request, CallError>
    ensures { ReadsAs result (request_in kind path.now body.now) }
{
    match kind {
        CallKind::OpenUnit => open_unit(alloc, path, body),
        CallKind::Grant => grant(alloc, path, body),
        CallKind::Withdraw => withdraw(alloc, path, body),
        CallKind::Register => register(alloc, path, body),
        CallKind::Import => import(alloc, path, body),
        CallKind::TimedShelve => timed_shelve(alloc, path, body),
        CallKind::OneShotShelve => one_shot_shelve(alloc, path, body),
        CallKind::Unshelve => unshelve(alloc, path),
        CallKind::RemoveFromService => remove_from_service(alloc, path, body),
        CallKind::PlaceInService => place_in_service(alloc, path),
        CallKind::Propose => propose(alloc, path, body),
        CallKind::WithdrawChange => withdraw_change(alloc, path),
        CallKind::Approve => approve(alloc, path),
        CallKind::Reject => reject(alloc, path),
        CallKind::Status => status(alloc, path),
        CallKind::RecordOf => record_of(alloc, path),
        CallKind::ChangeOf => change_of(alloc, path),
        CallKind::Alarms => Ok(Request::Alarms {
            unit: unit_in(alloc, path)?,
        }),
        CallKind::Shelves => Ok(Request::Shelves {
            unit: unit_in(alloc, path)?,
        }),
        CallKind::Standing => Ok(Request::Standing {
            unit: unit_in(alloc, path)?,
        }),
        CallKind::Floods => floods(alloc, path),
        CallKind::MyUnits => Ok(Request::MyUnits),
        CallKind::MyShelves => Ok(Request::MyShelves),
    }
}

fn route_in(routes: &Routes, method: &[u8], target: &[u8]) -> Result<CallKind, CallError>
    ensures { ReadsAs result (ok_or (route_of method.now target.now) NoRoute) }
{
    routes
        .of(method, target)
        .ok_or(CallError::Because(Cause::NoRoute))
}

/// The call of a request, by its method, its target, its fields and its body.
#[tactic(auto, unfolding(crate::specs::Reading::call_in))]
pub(crate) fn call_in(
    alloc: Global,
    routes: &Routes,
    method: &[u8],
    target: &[u8],
    fields: Fields<'_>,
    body: &[u8],
) -> Result<Call, CallError>
    requires { All (IsHeaderWithin (length fields.front.now)) fields.headers.now }
    ensures { ReadsAs result (call_in method.now target.now
        (map (header_bytes fields.entry.front.now) fields.entry.headers.now) body.now) }
{
    let kind = route_in(routes, method, target)?;
    let person = person_in(alloc, fields)?;
    let moment = moment_in(fields)?;
    let request = request_in(alloc, kind, target, body)?;
    Ok(Call {
        person,
        moment,
        request,
    })
}
