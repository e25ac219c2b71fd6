//! Reads the body of a proposal, which is to change an alarm's record, a unit's matrix or the limit of an alarm's
//! shelves.

ghost use Rattle.std.specs.Prelude.{◌≡◌};
ghost use Rattle.serde_json.specs.View.{view};
ghost use Rattle.plant_wire_body.specs.{Bodies.{read_by}, Members.{ReadsAs}, Proposals.{sheet_in, record_in, matrix_in, limit_in, change_in, proposal_in}};

use crate::bodies::matrix_from;
use crate::lists::{numbers_in, rows_in};
use crate::members::{
    BodyError, Unfit, base_in, seconds_in, severity_in, string_in, text_in, value_in,
};
use plant_ration::{ChangeKind, Proposal, Sheet};
use plant_types::{TagBytes, WordsBytes};
use serde_json::Value;
use std::alloc::Global;

const BAD: BodyError = BodyError::Because(Unfit::Body);

#[tactic(auto, unfolding(crate::specs::Proposals::sheet_in))]
fn sheet_in(alloc: Global, value: &Value) -> Result<Sheet, BodyError>
    ensures { ReadsAs result (sheet_in (view value.now)) }
{
    let cause = text_in::<WordsBytes>(alloc, value, "cause")?;
    let consequence = text_in::<WordsBytes>(alloc, value, "consequence")?;
    let action = text_in::<WordsBytes>(alloc, value, "action")?;
    let severity = severity_in(value, "severity")?;
    let response = seconds_in(value, "response")?;
    Ok(Sheet {
        cause,
        consequence,
        action,
        severity,
        response,
    })
}

#[tactic(auto, unfolding(crate::specs::Proposals::record_in))]
fn record_in(alloc: Global, value: &Value) -> Result<ChangeKind, BodyError>
    ensures { ReadsAs result (record_in (view value.now)) }
{
    let tag = text_in::<TagBytes>(alloc, value, "tag")?;
    let sheet = sheet_in(alloc, value)?;
    Ok(ChangeKind::Rationale(tag, sheet))
}

#[tactic(auto, unfolding(crate::specs::Proposals::matrix_in))]
fn matrix_in(alloc: Global, value: &Value) -> Result<ChangeKind, BodyError>
    ensures { ReadsAs result (matrix_in (view value.now)) }
{
    let limits = numbers_in(alloc, value, "bands")?;
    let rows = rows_in(alloc, value, "cells")?;
    let matrix = matrix_from(alloc, &limits, &rows)?;
    Ok(ChangeKind::Matrix(matrix))
}

#[tactic(auto, unfolding(crate::specs::Proposals::limit_in))]
fn limit_in(alloc: Global, value: &Value) -> Result<ChangeKind, BodyError>
    ensures { ReadsAs result (limit_in (view value.now)) }
{
    let tag = text_in::<TagBytes>(alloc, value, "tag")?;
    let max = seconds_in(value, "max")?;
    Ok(ChangeKind::Limit(tag, max))
}

fn change_in(alloc: Global, kind: &str, value: &Value) -> Result<ChangeKind, BodyError>
    ensures { ReadsAs result (change_in kind.now (view value.now)) }
{
    if kind == "record" {
        record_in(alloc, value)
    } else if kind == "matrix" {
        matrix_in(alloc, value)
    } else if kind == "limit" {
        limit_in(alloc, value)
    } else {
        Err(BAD)
    }
}

#[tactic(auto, unfolding(crate::specs::Proposals::proposal_in))]
fn proposal_in(alloc: Global, value: &Value) -> Result<Proposal, BodyError>
    ensures { ReadsAs result (proposal_in (view value.now)) }
{
    let name = string_in(value, "kind").ok_or(BAD)?;
    let base = base_in(value, "base")?;
    let kind = change_in(alloc, name, value)?;
    Ok(Proposal { kind, base })
}

/// The body of a proposal: `kind`, `base` from 0 to 20,000, and for `"record"` `tag`, `cause`, `consequence`,
/// `action`, `severity` from 1 to 5 and `response` in seconds, for `"matrix"` `bands` and `cells`, for `"limit"`
/// `tag` and `max` in seconds. A table that is not a matrix is reported only if all else is right.
pub fn read_proposal(alloc: Global, bytes: &[u8]) -> Result<Proposal, BodyError>
    ensures { ReadsAs result (read_by proposal_in bytes.now) }
{
    let value = value_in(alloc, bytes)?;
    proposal_in(alloc, &value)
}
