//! Judges a call on a unit from the part of the unit's rows that the call looks at: a refusal, or the reply and the
//! changes to make. Each kind of call has its rules in another file; here a call is passed to them.

ghost use Rattle.std.specs.Prelude.{◌≡◌, List, IfOk, option_copied, true, false};
ghost use Rattle.plant_types.specs.Results.{OnlyMemory};
ghost use Rattle.plant_alarm.specs.declared.event.Event.{Event as TheEvent};
ghost use Rattle.plant_model.specs.{Verdicts.{is_opening, is_read}, declared.call.Call.{Call}};
ghost use Rattle.plant_model.specs.declared.call.Request.TheVariants.{Shelves as ShelvesCall};
ghost use Rattle.plant_model.specs.steps.RowFacts.{facts_among, facts_in, unit_read};
ghost use Rattle.plant_unit.specs.{Additions.{AreKept}, FromFacts.{Answers}};
ghost use Rattle.plant_unit.specs.Judged.{AreEventsSeen, IsJudged, IsJudgedOwn, IsOpeningFor, IsPartOf, IsVerdictOn, SaysHeld, is_import};

use crate::changes::{is_read, opening_changes};
use crate::decisions::{approve, propose, reject, withdraw_change};
use crate::grants::{grant, withdraw};
use crate::imports::judge_import;
use crate::refusals::holder_refusal;
use crate::replies::{alarms, change, floods, record, shelves, standing, status, take_shelves};
use crate::service::{place_in_service, register, remove_from_service};
use crate::shelving::{Shelving, end_shelf, shelve_for, shelve_once};
use crate::verdicts::{answer, verdict_of};
use plant_model::{Call, Refused, Reply, Request, UnitPart, UnitRow, Verdict};
use plant_types::{Fault, Person, UnitCode};
use std::alloc::Global;

/// Judges a call that changes something and is not an import. The caller is allowed to make it.
fn judge_change(
    alloc: Global,
    unit: &UnitRow,
    part: &UnitPart,
    call: &Call,
) -> Result<Verdict, Fault>
    requires row { unit_read part.now.rows ≡ unit.now }
    requires plain { is_opening call.now.request ≡ false }
    requires no_import { is_import call.now.request ≡ false }
    requires changes { is_read call.now.request ≡ false }
    ensures value { AreKept part.now → IfOk result (IsJudgedOwn (facts_in part.now) call.now) }
    ensures err { OnlyMemory result }
{
    let now = call.moment;
    match &call.request {
        Request::Grant { person, tenure, .. } => {
            verdict_of(alloc, unit, now, grant(alloc, part, now, person, *tenure))
        }
        Request::Withdraw { person, role, .. } => {
            verdict_of(alloc, unit, now, withdraw(alloc, part, person, *role))
        }
        Request::Register {
            tag,
            latching,
            max,
            ..
        } => verdict_of(
            alloc,
            unit,
            now,
            register(alloc, part, tag, *latching, *max),
        ),
        Request::TimedShelve {
            tag,
            seconds,
            words,
            ..
        } => {
            let decision = shelve_for(alloc, unit, part, call, Shelving { tag, words }, *seconds);
            verdict_of(alloc, unit, now, decision)
        }
        Request::OneShotShelve { tag, words, .. } => {
            let decision = shelve_once(alloc, unit, part, call, Shelving { tag, words });
            verdict_of(alloc, unit, now, decision)
        }
        Request::Unshelve { tag, .. } => verdict_of(
            alloc,
            unit,
            now,
            end_shelf(alloc, part, now, tag),
        ),
        Request::RemoveFromService { tag, words, .. } => {
            let decision = remove_from_service(alloc, part, call, tag, words);
            verdict_of(alloc, unit, now, decision)
        }
        Request::PlaceInService { tag, .. } => {
            verdict_of(alloc, unit, now, place_in_service(alloc, part, tag))
        }
        Request::Propose { proposal, .. } => propose(alloc, unit, part, call, proposal),
        Request::WithdrawChange { number, .. } => {
            verdict_of(
                alloc,
                unit,
                now,
                withdraw_change(alloc, part, call, *number),
            )
        }
        Request::Approve { number, .. } => approve(alloc, unit, part, call, *number),
        Request::Reject { number, .. } => {
            verdict_of(alloc, unit, now, reject(alloc, part, call, *number))
        }
        // Judged elsewhere: openings, imports, and reads.
        Request::OpenUnit { .. }
        | Request::Import { .. }
        | Request::Status { .. }
        | Request::RecordOf { .. }
        | Request::ChangeOf { .. }
        | Request::Shelves { .. }
        | Request::Alarms { .. }
        | Request::Standing { .. }
        | Request::Floods { .. }
        | Request::MyUnits
        | Request::MyShelves => answer(alloc, Ok(Ok(Reply::Done))),
    }
}

/// The answer to a read. The caller is allowed to make it.
fn answer_to(alloc: Global, part: &UnitPart, call: &Call) -> Result<Result<Reply, Refused>, Fault>
    requires reads { is_read call.now.request ≡ true }
    ensures value { AreKept part.now → Answers part.now call.now.person call.now.moment call.now.request result }
    ensures err { OnlyMemory result }
{
    let now = call.moment;
    match &call.request {
        Request::Status { tag, .. } => status(alloc, part, now, tag),
        Request::RecordOf { tag, .. } => record(alloc, part, tag),
        Request::ChangeOf { number, .. } => change(alloc, part, *number),
        Request::Shelves { unit } => shelves(alloc, part, now, unit),
        Request::Alarms { unit } => alarms(alloc, part, now, unit),
        Request::Standing { unit } => standing(alloc, part, now, unit),
        Request::Floods { unit, begin, until } => floods(alloc, part, unit, *begin, *until),
        // Judged elsewhere: calls that change something, and calls that name no unit.
        Request::OpenUnit { .. }
        | Request::Grant { .. }
        | Request::Withdraw { .. }
        | Request::Register { .. }
        | Request::TimedShelve { .. }
        | Request::OneShotShelve { .. }
        | Request::Unshelve { .. }
        | Request::RemoveFromService { .. }
        | Request::PlaceInService { .. }
        | Request::Propose { .. }
        | Request::WithdrawChange { .. }
        | Request::Approve { .. }
        | Request::Reject { .. }
        | Request::Import { .. }
        | Request::MyUnits
        | Request::MyShelves => Ok(Ok(Reply::Done)),
    }
}

/// Judges a call that is not an import. The caller is allowed to make it.
fn judge_own(alloc: Global, unit: &UnitRow, part: &UnitPart, call: &Call) -> Result<Verdict, Fault>
    requires row { unit_read part.now.rows ≡ unit.now }
    requires plain { is_opening call.now.request ≡ false }
    requires no_import { is_import call.now.request ≡ false }
    ensures value { AreKept part.now → IfOk result (IsJudgedOwn (facts_in part.now) call.now) }
    ensures err { OnlyMemory result }
{
    if is_read(&call.request) {
        answer(alloc, answer_to(alloc, part, call))
    } else {
        judge_change(alloc, unit, part, call)
    }
}

fn judge_part(alloc: Global, unit: &UnitRow, part: &UnitPart, call: &Call) -> Result<Verdict, Fault>
    requires row { unit_read part.now.rows ≡ unit.now }
    requires plain { is_opening call.now.request ≡ false }
    ensures value { SaysHeld part.now call.now → AreKept part.now → (es : List TheEvent)
        → AreEventsSeen part.now call.now es → IfOk result (IsJudged (facts_among part.now es) call.now) }
    ensures err { OnlyMemory result }
{
    if let Some(refused) = holder_refusal(unit, part, call) {
        return Ok(Verdict::Refused(refused));
    }
    match &call.request {
        Request::Import { file, .. } => judge_import(alloc, unit, part, call, file),
        _ => judge_own(alloc, unit, part, call),
    }
}

/// The verdict on a call, from the part of the unit's rows that the call looks at. The part is `None` for a unit that
/// was never opened. `judge_open` judges the call that opens it.
///
/// For every legal history to whose rows the part belongs: the verdict is that of the history, and its changes turn the
/// rows of the history into those of the history followed by the call (no changes for a refusal or a read).
pub fn judge(alloc: Global, given: Option<&UnitPart>, call: &Call) -> Result<Verdict, Fault>
    requires { is_opening call.now.request ≡ false }
    ensures value { (h : List Call) → IsPartOf (option_copied given.entry) h call.now
        → IfOk result (IsVerdictOn h call.now) }
    ensures err { OnlyMemory result }
{
    let Some(part) = given else {
        return Ok(Verdict::Refused(Refused::NotGranted));
    };
    let Some(unit) = part.rows.units.as_slice().first() else {
        return Ok(Verdict::Refused(Refused::NotGranted));
    };
    judge_part(alloc, unit, part, call)
}

/// Judges a call for the unit's shelves, and takes them out of the part.
fn judge_shelves(
    alloc: Global,
    unit: &UnitRow,
    part: &mut UnitPart,
    call: &Call,
    code: &UnitCode,
) -> Result<Verdict, Fault>
    requires row { unit_read part.old.rows ≡ unit.now }
    requires asked { call.now.request ≡ ShelvesCall code.now }
    ensures value { SaysHeld part.old call.now → AreKept part.old → (es : List TheEvent)
        → AreEventsSeen part.old call.now es → IfOk result (IsJudged (facts_among part.old es) call.now) }
    ensures err { OnlyMemory result }
{
    match holder_refusal(unit, part, call) {
        Some(refused) => Ok(Verdict::Refused(refused)),
        None => answer(alloc, take_shelves(alloc, part, call.moment, code)),
    }
}

/// The verdict of `judge`, from a part that is not needed after a read: a call for the unit's shelves takes them out of
/// it, so that their words need not be copied again. Any other call leaves the part as it is.
pub fn judge_taking(
    alloc: Global,
    given: &mut Option<UnitPart>,
    call: &Call,
) -> Result<Verdict, Fault>
    requires { is_opening call.now.request ≡ false }
    ensures value { (h : List Call) → IsPartOf given.old h call.now
        → IfOk result (IsVerdictOn h call.now) }
    ensures part { is_read call.now.request ≡ false → given.new ≡ given.old }
    ensures err { OnlyMemory result }
{
    let Request::Shelves { unit: code } = &call.request else {
        return judge(alloc, given.as_ref(), call);
    };
    let Some(from) = given else {
        return Ok(Verdict::Refused(Refused::NotGranted));
    };
    let Some(unit) = from.rows.units.as_slice().first() else {
        return Ok(Verdict::Refused(Refused::NotGranted));
    };
    let unit = *unit;
    judge_shelves(alloc, &unit, from, call, code)
}

/// The verdict on an opening. `taken` is whether a unit with this code exists already.
#[tactic(auto, using(crate::proofs::JudgedLaws::opened_verdict))]
pub fn judge_open(
    alloc: Global,
    administrator: &Person,
    taken: bool,
    call: &Call,
) -> Result<Verdict, Fault>
    requires { is_opening call.now.request ≡ true }
    ensures value { IfOk result (IsOpeningFor administrator.now taken call.now) }
    ensures err { OnlyMemory result }
{
    if call.person != *administrator {
        return Ok(Verdict::Refused(Refused::NotAdministrator));
    }
    if taken {
        return Ok(Verdict::Refused(Refused::UnitTaken));
    }
    let changes = opening_changes(alloc, call)?;
    Ok(Verdict::Accepted(Reply::Done, changes))
}
