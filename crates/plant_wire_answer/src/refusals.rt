//! The JSON body and the HTTP status of a refusal. Each refusal has a number and a name, and some carry a value, such
//! as the limit that was exceeded.

ghost use Rattle.std.specs.Prelude.{◌≡◌, ◌++◌, Some, IfOk};
ghost use Rattle.plant_types.specs.{Adding.{Adds}, Results.{OnlyMemory}};
ghost use Rattle.plant_wire_answer.specs.Bodies.{bad_file_object, refusal_value, value_member};
ghost use Rattle.plant_wire_answer.specs.Names as spec;
ghost use Rattle.plant_wire_answer.specs.Answers as answers;
ghost use Rattle.plant_wire_answer.specs.Bodies as bodies;

use crate::json::{BODY_ROOM, push_number, push_string};
use crate::names::{change_state_name, file_cause_name, full_name, role_name};
use http::StatusCode;
use plant_import::BadFile;
use plant_model::Refused;
use plant_report::write_moment;
use plant_types::Fault;
use std::alloc::Global;

/// The number of a refusal and its name.
fn label_of(refused: &Refused) -> (u64, &'static [u8])
    ensures { (result.0, result.1.now) ≡ spec.refusal_label refused.now }
{
    match refused {
        Refused::NotAdministrator => (1, b"NotAdministrator"),
        Refused::UnitTaken => (2, b"UnitTaken"),
        Refused::NotGranted => (3, b"NotGranted"),
        Refused::RoleLacking(_) => (4, b"RoleLacking"),
        Refused::MomentBehind(_) => (5, b"MomentBehind"),
        Refused::UnitFull(_) => (6, b"UnitFull"),
        Refused::AlarmTaken => (7, b"AlarmTaken"),
        Refused::AlarmUnknown => (8, b"AlarmUnknown"),
        Refused::ShelvingTimeOutOfRange(_) => (9, b"ShelvingTimeOutOfRange"),
        Refused::ConditionAlreadyShelved => (10, b"ConditionAlreadyShelved"),
        Refused::ConditionNotShelved => (11, b"ConditionNotShelved"),
        Refused::AlreadyOutOfService => (12, b"AlreadyOutOfService"),
        Refused::NotOutOfService => (13, b"NotOutOfService"),
        Refused::AlreadyHeld => (14, b"AlreadyHeld"),
        Refused::NotHeld => (15, b"NotHeld"),
        Refused::LastSteward => (16, b"LastSteward"),
        Refused::ChangeUnknown => (17, b"ChangeUnknown"),
        Refused::NotProposed(_) => (18, b"NotProposed"),
        Refused::SamePerson => (19, b"SamePerson"),
        Refused::NotProposer => (20, b"NotProposer"),
        Refused::BaseChanged(_) => (21, b"BaseChanged"),
        Refused::OutsideMatrix => (22, b"OutsideMatrix"),
        Refused::NotAnAlarm => (23, b"NotAnAlarm"),
        Refused::RecordUnknown => (24, b"RecordUnknown"),
        Refused::RangeNotAligned => (25, b"RangeNotAligned"),
        Refused::BadFile(_) => (26, b"BadFile"),
        Refused::ShelfQuota(_) => (27, b"ShelfQuota"),
        Refused::EndNotAhead => (28, b"EndNotAhead"),
    }
}

/// The status of a refusal.
pub fn status_of(refused: &Refused) -> StatusCode
    ensures { result ≡ answers.refusal_status refused.now }
{
    match refused {
        Refused::NotAdministrator | Refused::NotGranted | Refused::RoleLacking(_) => {
            StatusCode::FORBIDDEN
        }
        _ => StatusCode::CONFLICT,
    }
}

/// Adds the member `value` of a file's fault: its cause and its line.
fn push_bad_file(out: &mut Vec<u8>, fault: &BadFile) -> Result<(), Fault>
    ensures value { Adds result out.old.items out.new.items
        (value_member (Some (bad_file_object fault.now))) }
    ensures err { OnlyMemory result }
{
    push_string(out, b",\"value\":{\"cause\":", file_cause_name(fault.cause))?;
    push_number(out, b",\"line\":", fault.line)?;
    Ok(out.push(b'}')?)
}

/// Adds the member `value`, if the refusal carries one.
fn push_value(out: &mut Vec<u8>, refused: &Refused) -> Result<(), Fault>
    ensures value { Adds result out.old.items out.new.items
        (value_member (refusal_value refused.now)) }
    ensures err { OnlyMemory result }
{
    match refused {
        Refused::RoleLacking(role) => push_string(out, b",\"value\":", role_name(*role)),
        Refused::MomentBehind(last) => push_string(out, b",\"value\":", &write_moment(*last)),
        Refused::UnitFull(what) => push_string(out, b",\"value\":", full_name(*what)),
        Refused::ShelvingTimeOutOfRange(max) => push_number(out, b",\"value\":", max.get()),
        Refused::NotProposed(state) => {
            push_string(out, b",\"value\":", change_state_name(*state))
        }
        Refused::BaseChanged(revision) => push_number(out, b",\"value\":", u64::from(*revision)),
        Refused::BadFile(fault) => push_bad_file(out, fault),
        Refused::ShelfQuota(quota) => push_number(out, b",\"value\":", quota.get()),
        _ => Ok(()),
    }
}

/// The body of a refusal.
#[tactic(auto, unfolding(crate::specs::Bodies::refusal_body))]
pub fn refusal_body(alloc: Global, refused: &Refused) -> Result<Vec<u8>, Fault>
    ensures value { IfOk result (λ out. out.items ≡ bodies.refusal_body refused.now) }
    ensures err { OnlyMemory result }
{
    let mut out = Vec::with_capacity(alloc, BODY_ROOM)?;
    let (number, name) = label_of(refused);
    push_string(&mut out, b"{\"name\":", name)?;
    push_number(&mut out, b",\"refused\":", number)?;
    push_value(&mut out, refused)?;
    out.push(b'}')?;
    Ok(out)
}
