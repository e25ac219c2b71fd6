//! Reads single members of a JSON object, each with the limits of its type, and the errors of reading a body: out of
//! memory, or the body is unfit.

ghost use Rattle.std.specs.Prelude.{◌≡◌, option_map};
ghost use Rattle.serde_json.specs.View.{view};
ghost use Rattle.plant_wire_body.specs.Members.{ReadsAs, ReadsAsSeen, or_body, value_of, whole_number, number_at, string_at, truth_at, text_at, seconds_at, base_at, severity_at, role_at, quota_at, end_at, tenure_of};
ghost use Rattle.plant_wire_body.specs.Members as spec;

use plant_ration::MatrixFault;
use plant_types::limits::{MAX_CHANGES, MAX_QUOTA};
use plant_types::{Alphabet, Fault, Moment, Quota, Role, Seconds, Tenure, Text};
use serde_json::Value;
use std::alloc::{AllocError, AllocFailed, Global};

/// Why a body isn't what the call asks for.
#[derive(Clone, Copy, Debug, PartialEq, Eq)]
pub enum Unfit {
    /// It is not a JSON object with the members of the call, each with an allowed value.
    Body,
    /// It is such an object, but its table of cells is not a matrix.
    Matrix(MatrixFault),
}

/// Why a body gives no value.
#[derive(Clone, Copy, Debug, PartialEq, Eq)]
pub enum BodyError {
    /// Out of memory.
    Memory,
    /// The body is unfit.
    Because(Unfit),
}

impl From<AllocError> for BodyError {
    ghost use Rattle.std.specs.Prelude.{◌≡◌};
    ghost use Rattle.plant_wire_body.specs.declared.members.BodyError.TheVariants.{Memory};

    ghost from_gives = { λ _ e. e ≡ Memory };

    fn from(_error: AllocError) -> BodyError {
        BodyError::Memory
    }
}

impl<T: Drop> From<AllocFailed<T>> for BodyError {
    ghost use Rattle.std.specs.Prelude.{◌≡◌};
    ghost use Rattle.plant_wire_body.specs.declared.members.BodyError.TheVariants.{Memory};

    ghost from_gives = { λ _ e. e ≡ Memory };

    fn from(_error: AllocFailed<T>) -> BodyError {
        BodyError::Memory
    }
}

impl From<Fault> for BodyError {
    ghost use Rattle.std.specs.Prelude.{◌≡◌};
    ghost use Rattle.plant_wire_body.specs.declared.members.BodyError.TheVariants.{Memory};

    ghost from_gives = { λ _ e. e ≡ Memory };

    fn from(_fault: Fault) -> BodyError {
        BodyError::Memory
    }
}

const BAD: BodyError = BodyError::Because(Unfit::Body);

/// Parses the bytes as JSON.
#[tactic(auto, using(crate::proofs::Values::value_found, crate::proofs::Values::value_missing))]
pub(crate) fn value_in(alloc: Global, bytes: &[u8]) -> Result<Value, BodyError>
    ensures { ReadsAsSeen view result (or_body (value_of bytes.now)) }
{
    match Value::from_slice(alloc, bytes) {
        Ok(value) => Ok(value),
        Err(e) => {
            if e.is_memory() {
                Err(BodyError::Memory)
            } else {
                Err(BAD)
            }
        }
    }
}

pub(crate) fn whole_number(value: &Value) -> Option<u64>
    ensures { result ≡ whole_number (view value.now) }
{
    value.as_u64()
}

fn number_in(value: &Value, name: &str) -> Option<u64>
    ensures { result ≡ number_at name.now (view value.now) }
{
    value.get(name).and_then(Value::as_u64)
}

pub(crate) fn string_in<'v>(value: &'v Value, name: &str) -> Option<&'v str>
    ensures { option_map (λ t. t.now) result ≡ string_at name.now (view value.now) }
{
    value.get(name).and_then(Value::as_str)
}

pub(crate) fn truth_in(value: &Value, name: &str) -> Result<bool, BodyError>
    ensures { ReadsAs result (or_body (truth_at name.now (view value.now))) }
{
    value.get(name).and_then(Value::as_bool).ok_or(BAD)
}

pub(crate) fn text_in<C: Alphabet>(
    alloc: Global,
    value: &Value,
    name: &str,
) -> Result<Text<C>, BodyError>
    ensures { ReadsAs result (or_body (text_at C.admits C.longest name.now (view value.now))) }
{
    let string = string_in(value, name).ok_or(BAD)?;
    Text::read(alloc, string.as_bytes())?.ok_or(BAD)
}

pub(crate) fn seconds_in(value: &Value, name: &str) -> Result<Seconds, BodyError>
    ensures { ReadsAs result (or_body (seconds_at name.now (view value.now))) }
{
    number_in(value, name).and_then(Seconds::new).ok_or(BAD)
}

/// The revision that a proposal is drawn up for: 0 to 20,000.
pub(crate) fn base_in(value: &Value, name: &str) -> Result<u32, BodyError>
    ensures { ReadsAs result (or_body (base_at name.now (view value.now))) }
{
    match number_in(value, name) {
        Some(base) if base <= MAX_CHANGES => Ok(base as u32),
        _ => Err(BAD),
    }
}

/// The severity of a consequence: 1 to 5.
pub(crate) fn severity_in(value: &Value, name: &str) -> Result<u8, BodyError>
    ensures { ReadsAs result (or_body (severity_at name.now (view value.now))) }
{
    match number_in(value, name) {
        Some(severity) if severity >= 1 && severity <= 5 => Ok(severity as u8),
        _ => Err(BAD),
    }
}

fn role_named(name: &str) -> Option<Role>
    ensures { result ≡ spec.role_named name.now }
{
    if name == "Viewer" {
        Some(Role::Viewer)
    } else if name == "Operator" {
        Some(Role::Operator)
    } else if name == "Maintainer" {
        Some(Role::Maintainer)
    } else if name == "Engineer" {
        Some(Role::Engineer)
    } else if name == "Approver" {
        Some(Role::Approver)
    } else if name == "Steward" {
        Some(Role::Steward)
    } else {
        None
    }
}

pub(crate) fn role_in(value: &Value, name: &str) -> Result<Role, BodyError>
    ensures { ReadsAs result (or_body (role_at name.now (view value.now))) }
{
    string_in(value, name).and_then(role_named).ok_or(BAD)
}

/// The quota; the greatest one if the member is missing.
pub(crate) fn quota_in(value: &Value, name: &str) -> Result<Quota, BodyError>
    ensures { ReadsAs result (or_body (quota_at name.now (view value.now))) }
{
    let given = match value.get(name) {
        Some(quota) => whole_number(quota),
        None => Some(MAX_QUOTA),
    };
    given.and_then(Quota::new).ok_or(BAD)
}

/// The end of a role; `None` if the member is missing or null.
pub(crate) fn end_in(value: &Value, name: &str) -> Result<Option<Moment>, BodyError>
    ensures { ReadsAs result (or_body (end_at name.now (view value.now))) }
{
    let Some(end) = value.get(name) else {
        return Ok(None);
    };
    if end.is_null() {
        return Ok(None);
    }
    let text = end.as_str().ok_or(BAD)?;
    let moment = Moment::read(text.as_bytes()).ok_or(BAD)?;
    Ok(Some(moment))
}

pub(crate) fn tenure_of(role: Role, until: Option<Moment>) -> Result<Tenure, BodyError>
    ensures { ReadsAs result (or_body (tenure_of role until)) }
{
    Tenure::new(role, until).ok_or(BAD)
}
