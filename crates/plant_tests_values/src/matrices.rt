//! Matrices, and copies of changes.

use crate::fixtures::{seconds, tag, words};
use plant_ration::{Cell, ChangeKind, Matrix, Proposal, Sheet};
use std::alloc::Global;
use std::process::Abort;

type Row = &'static [Cell];

/// The rows of a matrix.
fn rows(rt: &impl Abort, alloc: Global, rows: &[Row]) -> Vec<Vec<Cell>> {
    let mut made = Vec::new(alloc);
    for row in rows {
        let row = row.to_vec(alloc).expect(rt, "memory");
        made.push(row).expect(rt, "memory");
    }
    made
}

/// The matrix of the worked examples: shorter than 300 seconds, and longer.
const WORKED: [Row; 2] = [&[Cell::P3, Cell::P4], &[Cell::P1, Cell::P2]];

fn matrix(rt: &impl Abort, alloc: Global) -> Matrix {
    Matrix::new(alloc, &[300], &rows(rt, alloc, &WORKED))
        .expect(rt, "memory")
        .expect(rt, "a matrix")
}

#[test]
fn gives_severity_0_no_priority(rt: HostRuntime) {
    let matrix = matrix(&rt, rt.alloc());
    assert!(rt; matrix.priority(0, seconds(&rt, 120)).is_none());
}

fn printed(rt: &impl Abort, alloc: Global, proposal: &Proposal) -> String {
    format!(in alloc; "{proposal:?}").expect(rt, "memory")
}

/// Whether a proposal's copy prints as the proposal does.
fn is_copied(rt: &impl Abort, alloc: Global, kind: ChangeKind) -> bool {
    let proposal = Proposal { kind, base: 1 };
    let copy = proposal.copy(alloc).expect(rt, "memory");
    printed(rt, alloc, &copy) == printed(rt, alloc, &proposal)
}

fn sheet(rt: &impl Abort, alloc: Global) -> Sheet {
    Sheet {
        cause: words(rt, alloc, b"seal leak"),
        consequence: words(rt, alloc, b"loss of pressure"),
        action: words(rt, alloc, b"close XV-7"),
        severity: 2,
        response: seconds(rt, 120),
    }
}

#[test]
fn copies_records(rt: HostRuntime) {
    let alloc = rt.alloc();
    let kind = ChangeKind::Rationale(tag(&rt, alloc, b"PT-101"), sheet(&rt, alloc));
    assert!(rt; is_copied(&rt, alloc, kind));
}

#[test]
fn copies_matrices_and_limits(rt: HostRuntime) {
    let alloc = rt.alloc();
    assert!(rt; is_copied(&rt, alloc, ChangeKind::Matrix(matrix(&rt, alloc))));
    let limit = ChangeKind::Limit(tag(&rt, alloc, b"PT-101"), seconds(&rt, 600));
    assert!(rt; is_copied(&rt, alloc, limit));
}
