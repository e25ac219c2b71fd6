//! Facts about a request that do not depend on any row: its effect, the role that it needs, the unit that it names,
//! and which rows it looks at.

ghost use Rattle.std.specs.Prelude.{◌≡◌, option_copied, option_map};
ghost use Rattle.plant_model.specs.Events.{rows_of_file};
ghost use Rattle.plant_model.specs.steps.{LooksAt.{scope_of_proposal}, Parts.{selection}, Scopes.{IsScopeOf, Selects}};
ghost use Rattle.plant_model.specs.Kinds as kinds;
ghost use Rattle.plant_model.specs.steps.Scopes as scopes;

use crate::{ChangeEntry, Request};
use plant_alarm::Event;
use plant_import::FileRead;
use plant_ration::ChangeKind;
use plant_types::{Role, Tag, UnitCode};

/// The kinds of calls: a request without its data.
#[derive(Clone, Copy, Debug, PartialEq, Eq)]
pub enum CallKind {
    OpenUnit,
    Grant,
    Withdraw,
    Register,
    Import,
    TimedShelve,
    OneShotShelve,
    Unshelve,
    RemoveFromService,
    PlaceInService,
    Propose,
    WithdrawChange,
    Approve,
    Reject,
    Status,
    RecordOf,
    ChangeOf,
    Shelves,
    Alarms,
    Standing,
    Floods,
    MyUnits,
    MyShelves,
}

/// What calls do to the history of their unit.
#[derive(Clone, Copy, Debug, PartialEq, Eq)]
pub enum Effect {
    /// They begin the history.
    Opens,
    /// If accepted, they become its next entry.
    Changes,
    /// They leave it as it is.
    Reads,
}

/// What is counted in a unit for a call. Changes are counted by the number of the last one.
#[derive(Clone, Copy, Debug, PartialEq, Eq)]
pub enum Counted {
    Nothing,
    Alarms,
    Events,
    Changes,
}

/// What a call looks at, apart from the unit's own row and the caller's grants.
#[derive(Clone, Copy)]
pub enum Scope<'a> {
    NothingElse,
    AllGrants,
    /// An alarm with its shelf.
    OneAlarm(&'a Tag),
    /// An alarm with its shelf, for a shelving. The flag is whether it looks at all other alarms and shelves too,
    /// because the quota may be used up.
    Shelving(&'a Tag, bool),
    /// An alarm with its record and the change that it came from.
    OneRecord(&'a Tag),
    /// A change with its matrix.
    OneChange(u32),
    /// A change to be approved, with its row if it exists, and what it changes.
    Approval(u32, Option<&'a ChangeEntry>),
    /// An alarm with its record, and the matrix in force.
    Content(&'a Tag),
    /// All records with the changes that they came from, and the matrix in force.
    AllRecords,
    /// All alarms, and the events that are needed to import these rows of a file.
    File(&'a [Event]),
    /// All shelves with their alarms.
    AllShelves,
    /// All alarms, shelves and records.
    AllAlarms,
    AllEvents,
}

impl Request {
    /// What the request does, the role that it needs, and what is counted for it.
    fn traits(&self) -> (Effect, Option<Role>, Counted)
        ensures effect { result.0 ≡ kinds.effect_of self.now }
        ensures role { result.1 ≡ kinds.role_needed self.now }
        ensures count { result.2 ≡ kinds.count_of self.now }
    {
        match self {
            Request::OpenUnit { .. } => (Effect::Opens, None, Counted::Nothing),
            Request::Grant { .. } | Request::Withdraw { .. } => {
                (Effect::Changes, Some(Role::Steward), Counted::Nothing)
            }
            Request::Register { .. } => (Effect::Changes, Some(Role::Engineer), Counted::Alarms),
            Request::Import { .. } => (Effect::Changes, Some(Role::Operator), Counted::Events),
            Request::TimedShelve { .. }
            | Request::OneShotShelve { .. }
            | Request::Unshelve { .. } => {
                (Effect::Changes, Some(Role::Operator), Counted::Nothing)
            }
            Request::RemoveFromService { .. } | Request::PlaceInService { .. } => {
                (Effect::Changes, Some(Role::Maintainer), Counted::Nothing)
            }
            Request::Propose { .. } => (Effect::Changes, Some(Role::Engineer), Counted::Changes),
            Request::WithdrawChange { .. } => {
                (Effect::Changes, Some(Role::Engineer), Counted::Nothing)
            }
            Request::Approve { .. } | Request::Reject { .. } => {
                (Effect::Changes, Some(Role::Approver), Counted::Nothing)
            }
            Request::Status { .. }
            | Request::RecordOf { .. }
            | Request::ChangeOf { .. }
            | Request::Shelves { .. }
            | Request::Alarms { .. }
            | Request::Standing { .. }
            | Request::Floods { .. }
            | Request::MyUnits
            | Request::MyShelves => (Effect::Reads, None, Counted::Nothing),
        }
    }

    /// What the request does to the history of its unit.
    pub fn effect(&self) -> Effect
        ensures { result ≡ kinds.effect_of self.now }
    {
        self.traits().0
    }

    /// The role that the request needs. `None` if any role suffices, or if none is needed.
    pub fn role_needed(&self) -> Option<Role>
        ensures { result ≡ kinds.role_needed self.now }
    {
        self.traits().1
    }

    /// What is counted in the unit for the request.
    pub fn counted(&self) -> Counted
        ensures { result ≡ kinds.count_of self.now }
    {
        self.traits().2
    }

    /// The unit that the request names, if any.
    pub fn unit(&self) -> Option<&UnitCode>
        ensures { option_map (λ u. u.now) result ≡ kinds.unit_named self.now }
    {
        match self {
            Request::OpenUnit { unit, .. }
            | Request::Grant { unit, .. }
            | Request::Withdraw { unit, .. }
            | Request::Register { unit, .. }
            | Request::Import { unit, .. }
            | Request::TimedShelve { unit, .. }
            | Request::OneShotShelve { unit, .. }
            | Request::Unshelve { unit, .. }
            | Request::RemoveFromService { unit, .. }
            | Request::PlaceInService { unit, .. }
            | Request::Propose { unit, .. }
            | Request::WithdrawChange { unit, .. }
            | Request::Approve { unit, .. }
            | Request::Reject { unit, .. }
            | Request::Status { unit, .. }
            | Request::RecordOf { unit, .. }
            | Request::ChangeOf { unit, .. }
            | Request::Shelves { unit, .. }
            | Request::Alarms { unit, .. }
            | Request::Standing { unit, .. }
            | Request::Floods { unit, .. } => Some(unit),
            Request::MyUnits | Request::MyShelves => None,
        }
    }
}

/// Whether the request shelves an alarm.
pub fn is_shelving(request: &Request) -> bool
    ensures { result ≡ scopes.is_shelving request.now }
{
    matches!(
        request,
        Request::TimedShelve { .. } | Request::OneShotShelve { .. }
    )
}

/// Whether the request looks at the unit's events.
pub fn looks_at_events(request: &Request) -> bool
    ensures { result ≡ scopes.looks_at_events request.now }
{
    matches!(request, Request::Import { .. } | Request::Floods { .. })
}

/// Whether the request looks at the unit's matrices or changes.
pub fn looks_at_reviews(request: &Request) -> bool
    ensures { result ≡ scopes.looks_at_reviews request.now }
{
    matches!(
        request,
        Request::Propose { .. }
            | Request::WithdrawChange { .. }
            | Request::Approve { .. }
            | Request::Reject { .. }
            | Request::RecordOf { .. }
            | Request::ChangeOf { .. }
    )
}

/// The number of the change that the request approves, if any.
pub fn number_approved(request: &Request) -> Option<u32>
    ensures { result ≡ scopes.number_approved request.now }
{
    match request {
        Request::Approve { number, .. } => Some(*number),
        _ => None,
    }
}

/// The rows of a file. Empty if the file could not be read.
fn rows_of(file: &FileRead) -> &[Event]
    ensures { result.now ≡ rows_of_file file.now }
{
    match file {
        Ok(rows) => rows.as_slice(),
        Err(_) => &[],
    }
}

/// What a proposal of a change of this kind looks at.
fn scope_of_kind(kind: &ChangeKind) -> Scope<'_>
    ensures { Selects result (λ rows. selection rows (scope_of_proposal kind.now)) }
{
    match kind {
        ChangeKind::Rationale(tag, _) | ChangeKind::Limit(tag, _) => Scope::Content(tag),
        ChangeKind::Matrix(_) => Scope::AllRecords,
    }
}

/// What the request looks at in a unit. `crowded` is whether the unit's quota may be used up; `approved` is the row of
/// the change that the request approves, if any.
pub fn scope_of<'a>(
    request: &'a Request,
    crowded: bool,
    approved: Option<&'a ChangeEntry>,
) -> Scope<'a>
    ensures { IsScopeOf request.now crowded (option_copied approved.entry) result }
{
    match request {
        Request::Grant { .. } | Request::Withdraw { .. } => Scope::AllGrants,
        Request::Register { tag, .. }
        | Request::Unshelve { tag, .. }
        | Request::RemoveFromService { tag, .. }
        | Request::PlaceInService { tag, .. }
        | Request::Status { tag, .. } => Scope::OneAlarm(tag),
        Request::TimedShelve { tag, .. } | Request::OneShotShelve { tag, .. } => {
            Scope::Shelving(tag, crowded)
        }
        Request::Import { file, .. } => Scope::File(rows_of(file)),
        Request::Propose { proposal, .. } => scope_of_kind(&proposal.kind),
        Request::Approve { number, .. } => Scope::Approval(*number, approved),
        Request::WithdrawChange { number, .. }
        | Request::Reject { number, .. }
        | Request::ChangeOf { number, .. } => Scope::OneChange(*number),
        Request::RecordOf { tag, .. } => Scope::OneRecord(tag),
        Request::Shelves { .. } => Scope::AllShelves,
        Request::Alarms { .. } | Request::Standing { .. } => Scope::AllAlarms,
        Request::Floods { .. } => Scope::AllEvents,
        Request::OpenUnit { .. } | Request::MyUnits | Request::MyShelves => Scope::NothingElse,
    }
}
