//! The JSON bodies of a rationalisation record and of a proposed change, with the content that the change proposes: a
//! record, a matrix or a limit.

ghost use Rattle.std.specs.Prelude.{◌≡◌, ◌++◌, codes, map, option_map, IfOk};
ghost use Rattle.plant_types.specs.{Adding.{Adds}, Results.{OnlyMemory}};
ghost use Rattle.plant_report.specs.Moments.{moment_text};
ghost use Rattle.plant_wire_answer.specs.Changes.{sheet_object, row_list, matrix_object, limit_object, content_object, changed_tag};
ghost use Rattle.plant_wire_answer.specs.Json.{listed, quoted, quoted_or_null};
ghost use Rattle.plant_report.specs.Texts as texts;
ghost use Rattle.plant_wire_answer.specs.Changes as spec;

use crate::json::{
    BODY_ROOM, Json, push_listed, push_number, push_quoted, push_string, push_string_or_null,
};
use crate::names::{change_state_name, kind_name};
use plant_model::{ChangeRow, RecordRow};
use plant_ration::{Cell, ChangeKind, Matrix, Sheet};
use plant_report::{cell_name, write_moment};
use plant_types::{Fault, Moment, Person, Seconds};
use std::alloc::Global;

/// The body of a reply with a rationalisation record.
#[tactic(auto, unfolding(crate::specs::Changes::record_body))]
pub fn record_body(alloc: Global, row: &RecordRow) -> Result<Vec<u8>, Fault>
    ensures value { IfOk result (λ out. out.items ≡ spec.record_body row.now) }
    ensures err { OnlyMemory result }
{
    let mut out = Vec::with_capacity(alloc, BODY_ROOM)?;
    push_string(&mut out, b"{\"action\":", row.action.as_bytes())?;
    push_string(&mut out, b",\"cause\":", row.cause.as_bytes())?;
    push_number(&mut out, b",\"change\":", u64::from(row.change))?;
    push_string(&mut out, b",\"consequence\":", row.consequence.as_bytes())?;
    push_string(&mut out, b",\"priority\":", cell_name(row.priority))?;
    push_number(&mut out, b",\"response\":", row.response.get())?;
    push_number(&mut out, b",\"revision\":", u64::from(row.revision))?;
    push_number(&mut out, b",\"severity\":", u64::from(row.severity))?;
    push_string(&mut out, b",\"tag\":", row.tag.as_bytes())?;
    out.push(b'}')?;
    Ok(out)
}

#[tactic(auto, unfolding(crate::specs::Changes::sheet_object))]
fn push_sheet(out: &mut Vec<u8>, sheet: &Sheet) -> Result<(), Fault>
    ensures value { Adds result out.old.items out.new.items (sheet_object sheet.now) }
    ensures err { OnlyMemory result }
{
    push_string(out, b"{\"action\":", sheet.action.as_bytes())?;
    push_string(out, b",\"cause\":", sheet.cause.as_bytes())?;
    push_string(out, b",\"consequence\":", sheet.consequence.as_bytes())?;
    push_number(out, b",\"response\":", sheet.response.get())?;
    push_number(out, b",\"severity\":", u64::from(sheet.severity))?;
    Ok(out.push(b'}')?)
}

impl Json for Cell {
    ghost json = { λ cell. quoted (texts.cell_name cell) };

    fn push(&self, out: &mut Vec<u8>) -> Result<(), Fault> {
        push_quoted(out, cell_name(*self))
    }
}

impl Json for Vec<Cell> {
    ghost json = { λ row. row_list row.items };

    fn push(&self, out: &mut Vec<u8>) -> Result<(), Fault> {
        push_listed(out, self)
    }
}

/// Adds a list of the rows.
fn push_rows(out: &mut Vec<u8>, rows: &[Vec<Cell>]) -> Result<(), Fault>
    ensures value { Adds result out.old.items out.new.items
        (listed (map row_list (map (λ row. row.items) rows.now))) }
    ensures err { OnlyMemory result }
{
    push_listed(out, rows)
}

#[tactic(auto, unfolding(crate::specs::Changes::matrix_object))]
fn push_matrix(out: &mut Vec<u8>, matrix: &Matrix) -> Result<(), Fault>
    ensures value { Adds result out.old.items out.new.items (matrix_object matrix.now) }
    ensures err { OnlyMemory result }
{
    out.extend_from_slice(b"{\"bands\":")?;
    push_listed(out, matrix.limits())?;
    out.extend_from_slice(b",\"cells\":")?;
    push_rows(out, matrix.cells())?;
    Ok(out.push(b'}')?)
}

#[tactic(auto, unfolding(crate::specs::Changes::limit_object))]
fn push_limit(out: &mut Vec<u8>, max: Seconds) -> Result<(), Fault>
    ensures value { Adds result out.old.items out.new.items (limit_object max) }
    ensures err { OnlyMemory result }
{
    push_number(out, b"{\"max\":", max.get())?;
    Ok(out.push(b'}')?)
}

/// Adds the proposed content.
fn push_content(out: &mut Vec<u8>, kind: &ChangeKind) -> Result<(), Fault>
    ensures value { Adds result out.old.items out.new.items (content_object kind.now) }
    ensures err { OnlyMemory result }
{
    match kind {
        ChangeKind::Rationale(_, sheet) => push_sheet(out, sheet),
        ChangeKind::Matrix(matrix) => push_matrix(out, matrix),
        ChangeKind::Limit(_, max) => push_limit(out, *max),
    }
}

/// The tag of the alarm that a change concerns; a change of the matrix concerns none.
fn changed_tag(kind: &ChangeKind) -> Option<&[u8]>
    ensures { option_map (λ t. t.now) result ≡ changed_tag kind.now }
{
    match kind {
        ChangeKind::Rationale(tag, _) => Some(tag.as_bytes()),
        ChangeKind::Matrix(_) => None,
        ChangeKind::Limit(tag, _) => Some(tag.as_bytes()),
    }
}

/// Adds the member `decided`: a moment, or null.
fn push_decided(out: &mut Vec<u8>, decided: Option<Moment>) -> Result<(), Fault>
    ensures value { Adds result (out.old.items ++ codes ",\"decided\":") out.new.items
        (quoted_or_null (option_map moment_text decided)) }
    ensures err { OnlyMemory result }
{
    match decided {
        Some(moment) => push_string(out, b",\"decided\":", &write_moment(moment)),
        None => Ok(out.extend_from_slice(b",\"decided\":null")?),
    }
}

/// The bytes of the name of a person, if any.
fn bytes_of(person: &Option<Person>) -> Option<&[u8]>
    ensures { option_map (λ t. t.now) result ≡ person.now }
{
    match person {
        Some(person) => Some(person.as_bytes()),
        None => None,
    }
}

/// The body of a reply to ChangeOf.
#[tactic(auto, unfolding(crate::specs::Changes::change_body))]
pub fn change_body(alloc: Global, row: &ChangeRow) -> Result<Vec<u8>, Fault>
    ensures value { IfOk result (λ out. out.items ≡ spec.change_body row.now) }
    ensures err { OnlyMemory result }
{
    let mut out = Vec::with_capacity(alloc, BODY_ROOM)?;
    push_number(&mut out, b"{\"base\":", u64::from(row.base))?;
    out.extend_from_slice(b",\"content\":")?;
    push_content(&mut out, &row.kind)?;
    push_decided(&mut out, row.decided)?;
    push_string_or_null(&mut out, b",\"decider\":", bytes_of(&row.decider))?;
    push_string(&mut out, b",\"kind\":", kind_name(&row.kind))?;
    push_number(&mut out, b",\"number\":", u64::from(row.number))?;
    push_string(&mut out, b",\"proposed\":", &write_moment(row.proposed))?;
    push_string(&mut out, b",\"proposer\":", row.proposer.as_bytes())?;
    push_string(&mut out, b",\"state\":", change_state_name(row.state))?;
    push_string_or_null(&mut out, b",\"tag\":", changed_tag(&row.kind))?;
    out.push(b'}')?;
    Ok(out)
}
