//! Reads the bodies of all requests but proposals: opening a unit, grants and withdrawals, registering an alarm,
//! shelving, and removal from service.

ghost use Rattle.std.specs.Prelude.{◌≡◌, map};
ghost use Rattle.serde_json.specs.View.{view};
ghost use Rattle.plant_wire_body.specs.Bodies.{matrix_from, opening_in, granting_in, withdrawal_in, registration_in, timed_shelving_in, reason_in, read_by};
ghost use Rattle.plant_wire_body.specs.Members.{ReadsAs};

use crate::lists::{numbers_in, rows_in};
use crate::members::{
    BodyError, Unfit, end_in, quota_in, role_in, seconds_in, tenure_of, text_in, truth_in, value_in,
};
use plant_ration::{Cell, Matrix};
use plant_types::{
    Person, PersonBytes, Quota, Role, Seconds, Tag, TagBytes, Tenure, Words, WordsBytes,
};
use serde_json::Value;
use std::alloc::Global;

/// The steward, the matrix and the quota of a unit that is to be opened.
#[derive(Drop)]
pub struct Opening {
    pub steward: Person,
    pub matrix: Matrix,
    pub quota: Quota,
}

/// Who is to have which role, and until when.
#[derive(Drop)]
pub struct Granting {
    pub person: Person,
    pub tenure: Tenure,
}

/// Who is to lose which role.
#[derive(Drop)]
pub struct Withdrawal {
    pub person: Person,
    pub role: Role,
}

/// An alarm that is to be registered.
#[derive(Drop)]
pub struct Registration {
    pub tag: Tag,
    pub latching: bool,
    pub max: Seconds,
}

/// How long an alarm is to be shelved, and why.
#[derive(Drop)]
pub struct TimedShelving {
    pub seconds: Seconds,
    pub words: Words,
}

pub(crate) fn matrix_from(
    alloc: Global,
    limits: &[u64],
    rows: &[Vec<Cell>],
) -> Result<Matrix, BodyError>
    ensures { ReadsAs result (matrix_from limits.now (map (λ row. row.items) rows.now)) }
{
    match Matrix::new(alloc, limits, rows)? {
        Ok(matrix) => Ok(matrix),
        Err(fault) => Err(BodyError::Because(Unfit::Matrix(fault))),
    }
}

#[tactic(auto, unfolding(crate::specs::Bodies::opening_in))]
fn opening_in(alloc: Global, value: &Value) -> Result<Opening, BodyError>
    ensures { ReadsAs result (opening_in (view value.now)) }
{
    let steward = text_in::<PersonBytes>(alloc, value, "steward")?;
    let limits = numbers_in(alloc, value, "bands")?;
    let rows = rows_in(alloc, value, "cells")?;
    let quota = quota_in(value, "quota")?;
    let matrix = matrix_from(alloc, &limits, &rows)?;
    Ok(Opening {
        steward,
        matrix,
        quota,
    })
}

#[tactic(auto, unfolding(crate::specs::Bodies::granting_in))]
fn granting_in(alloc: Global, value: &Value) -> Result<Granting, BodyError>
    ensures { ReadsAs result (granting_in (view value.now)) }
{
    let person = text_in::<PersonBytes>(alloc, value, "person")?;
    let role = role_in(value, "role")?;
    let until = end_in(value, "end")?;
    let tenure = tenure_of(role, until)?;
    Ok(Granting { person, tenure })
}

#[tactic(auto, unfolding(crate::specs::Bodies::withdrawal_in))]
fn withdrawal_in(alloc: Global, value: &Value) -> Result<Withdrawal, BodyError>
    ensures { ReadsAs result (withdrawal_in (view value.now)) }
{
    let person = text_in::<PersonBytes>(alloc, value, "person")?;
    let role = role_in(value, "role")?;
    Ok(Withdrawal { person, role })
}

#[tactic(auto, unfolding(crate::specs::Bodies::registration_in))]
fn registration_in(alloc: Global, value: &Value) -> Result<Registration, BodyError>
    ensures { ReadsAs result (registration_in (view value.now)) }
{
    let tag = text_in::<TagBytes>(alloc, value, "tag")?;
    let latching = truth_in(value, "latching")?;
    let max = seconds_in(value, "max")?;
    Ok(Registration { tag, latching, max })
}

#[tactic(auto, unfolding(crate::specs::Bodies::timed_shelving_in))]
fn timed_shelving_in(alloc: Global, value: &Value) -> Result<TimedShelving, BodyError>
    ensures { ReadsAs result (timed_shelving_in (view value.now)) }
{
    let seconds = seconds_in(value, "seconds")?;
    let words = text_in::<WordsBytes>(alloc, value, "words")?;
    Ok(TimedShelving { seconds, words })
}

/// The body of the opening of a unit: `steward`, `bands`, `cells`, and optionally `quota` (default 2000). A table that
/// is not a matrix is reported only if all else is right.
pub fn read_opening(alloc: Global, bytes: &[u8]) -> Result<Opening, BodyError>
    ensures { ReadsAs result (read_by opening_in bytes.now) }
{
    let value = value_in(alloc, bytes)?;
    opening_in(alloc, &value)
}

/// The body of a grant: `person`, `role`, and optionally `end`, which is null or a moment; a steward has no end.
pub fn read_granting(alloc: Global, bytes: &[u8]) -> Result<Granting, BodyError>
    ensures { ReadsAs result (read_by granting_in bytes.now) }
{
    let value = value_in(alloc, bytes)?;
    granting_in(alloc, &value)
}

/// The body of a withdrawal: `person`, `role`.
pub fn read_withdrawal(alloc: Global, bytes: &[u8]) -> Result<Withdrawal, BodyError>
    ensures { ReadsAs result (read_by withdrawal_in bytes.now) }
{
    let value = value_in(alloc, bytes)?;
    withdrawal_in(alloc, &value)
}

/// The body of a registration: `tag`, `latching`, `max` in seconds.
pub fn read_registration(alloc: Global, bytes: &[u8]) -> Result<Registration, BodyError>
    ensures { ReadsAs result (read_by registration_in bytes.now) }
{
    let value = value_in(alloc, bytes)?;
    registration_in(alloc, &value)
}

/// The body of a timed shelving: `seconds`, `words`.
pub fn read_timed_shelving(alloc: Global, bytes: &[u8]) -> Result<TimedShelving, BodyError>
    ensures { ReadsAs result (read_by timed_shelving_in bytes.now) }
{
    let value = value_in(alloc, bytes)?;
    timed_shelving_in(alloc, &value)
}

/// The body of a one-shot shelving or of a removal from service: `words`.
pub fn read_reason(alloc: Global, bytes: &[u8]) -> Result<Words, BodyError>
    ensures { ReadsAs result (read_by reason_in bytes.now) }
{
    let value = value_in(alloc, bytes)?;
    text_in::<WordsBytes>(alloc, &value, "words")
}
