//! What can be wrong with a malformed request, and how the errors of reading a body become such causes.

ghost use Rattle.std.specs.Prelude.{◌≡◌};
ghost use Rattle.plant_wire_call.specs.Causes as spec;

use plant_ration::MatrixFault;
use plant_types::Fault;
use plant_wire_body::{BodyError, Unfit};
use std::alloc::AllocError;

/// What is wrong with a malformed request. The first five end the session, since it is unknown where the next request
/// begins.
#[derive(Clone, Copy, Debug, PartialEq, Eq)]
pub enum Cause {
    /// What was received can't be the beginning of a head.
    HeadSyntax,
    /// No head ends within the first `MAX_HEAD` bytes.
    HeadTooLong,
    /// Content-Length comes more than once, or isn't a number in digits.
    LengthWrong,
    /// Content-Length is above 1,048,576.
    BodyTooLong,
    /// There is a Transfer-Encoding.
    Chunked,
    /// There is no such method and path.
    NoRoute,
    /// X-Person is missing, repeated, or not a person's name.
    BadPerson,
    /// X-Moment is missing, repeated, or not a moment.
    BadMoment,
    /// A segment of the path is not a value of its type.
    BadPath,
    /// The body isn't what the call asks for.
    BadBody,
    /// The table of cells does not have the shape of a matrix.
    MatrixShape,
    /// The limits between its bands don't rise.
    BandsNotRising,
    /// A cell is lower than its neighbours allow.
    NotOrdered,
}

/// Why the bytes are not a call.
#[derive(Clone, Copy, Debug)]
pub(crate) enum CallError {
    Memory,
    Because(Cause),
}

impl From<AllocError> for CallError {
    ghost use Rattle.std.specs.Prelude.{◌≡◌};
    ghost use Rattle.plant_wire_call.specs.declared.causes.CallError.TheVariants.{Memory};

    ghost from_gives = { λ _ e. e ≡ Memory };

    fn from(_error: AllocError) -> CallError {
        CallError::Memory
    }
}

impl From<Fault> for CallError {
    ghost use Rattle.std.specs.Prelude.{◌≡◌};
    ghost use Rattle.plant_wire_call.specs.declared.causes.CallError.TheVariants.{Memory};

    ghost from_gives = { λ _ e. e ≡ Memory };

    fn from(_fault: Fault) -> CallError {
        CallError::Memory
    }
}

/// The cause for an unfit body.
pub(crate) fn body_cause(unfit: Unfit) -> Cause
    ensures { result ≡ spec.body_cause unfit }
{
    match unfit {
        Unfit::Body => Cause::BadBody,
        Unfit::Matrix(MatrixFault::Shape) => Cause::MatrixShape,
        Unfit::Matrix(MatrixFault::BandsNotRising) => Cause::BandsNotRising,
        Unfit::Matrix(MatrixFault::NotOrdered) => Cause::NotOrdered,
    }
}

/// The error of a call for an error of its body.
pub(crate) fn body_error(error: BodyError) -> CallError
    ensures { result ≡ spec.body_error error }
{
    match error {
        BodyError::Memory => CallError::Memory,
        BodyError::Because(unfit) => CallError::Because(body_cause(unfit)),
    }
}
