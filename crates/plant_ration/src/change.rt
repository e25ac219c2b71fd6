//! Changes that need approval: of an alarm's rationalisation record, of the unit's matrix or of an alarm's shelving
//! limit. Their states are here too.

ghost use Rattle.std.specs.Prelude.{◌≡◌, IfOk};
ghost use Rattle.plant_types.specs.Results.{OnlyMemory};

use crate::Matrix;
use plant_types::{Fault, Seconds, Tag, Words};
use std::alloc::Global;

/// The rationalisation of an alarm: its cause, its consequence, the operator's action, and the
/// severity and the time to respond that determine its priority.
#[derive(Debug, Drop)]
pub struct Sheet {
    /// The cause of the alarm.
    pub cause: Words,
    /// The consequence if nobody acts.
    pub consequence: Words,
    /// The operator's corrective action.
    pub action: Words,
    /// The severity of the consequence, from 1, the least.
    pub severity: u8,
    /// The time to respond, in seconds.
    pub response: Seconds,
}

impl Sheet {
    /// A copy of the sheet.
    pub fn copy(&self, alloc: Global) -> Result<Sheet, Fault>
        ensures value { IfOk result (λ sheet. sheet ≡ self.now) }
        ensures memory { OnlyMemory result }
    {
        Ok(Sheet {
            cause: self.cause.copy(alloc)?,
            consequence: self.consequence.copy(alloc)?,
            action: self.action.copy(alloc)?,
            severity: self.severity,
            response: self.response,
        })
    }
}

/// What is to be changed, and to what.
#[derive(Debug, Drop)]
pub enum ChangeKind {
    /// The record of an alarm.
    Rationale(Tag, Sheet),
    /// The unit's matrix.
    Matrix(Matrix),
    /// The limit of an alarm's shelves.
    Limit(Tag, Seconds),
}

impl ChangeKind {
    /// A copy of the change.
    pub fn copy(&self, alloc: Global) -> Result<ChangeKind, Fault>
        ensures value { IfOk result (λ kind. kind ≡ self.now) }
        ensures memory { OnlyMemory result }
    {
        match self {
            ChangeKind::Rationale(tag, sheet) => Ok(ChangeKind::Rationale(
                tag.copy(alloc)?,
                sheet.copy(alloc)?,
            )),
            ChangeKind::Matrix(matrix) => Ok(ChangeKind::Matrix(matrix.copy(alloc)?)),
            ChangeKind::Limit(tag, max) => Ok(ChangeKind::Limit(tag.copy(alloc)?, *max)),
        }
    }
}

/// A proposed change, with the revision on which it is based.
#[derive(Debug, Drop)]
pub struct Proposal {
    /// The change.
    pub kind: ChangeKind,
    /// How many changes of the same record, matrix or limit were approved when it was drawn up.
    pub base: u32,
}

impl Proposal {
    /// A copy of the proposal.
    pub fn copy(&self, alloc: Global) -> Result<Proposal, Fault>
        ensures value { IfOk result (λ proposal. proposal ≡ self.now) }
        ensures memory { OnlyMemory result }
    {
        Ok(Proposal {
            kind: self.kind.copy(alloc)?,
            base: self.base,
        })
    }
}

/// The state of a change.
#[derive(Clone, Copy, Debug, PartialEq, Eq)]
pub enum ChangeState {
    /// Not decided yet.
    Proposed,
    /// Approved by someone other than its proposer, and in force until a later one is approved.
    Approved,
    /// Rejected by someone other than its proposer.
    Rejected,
    /// Withdrawn by its proposer.
    Withdrawn,
}
