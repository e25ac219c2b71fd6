//! Answers as bytes that no request shows: faults, and a line feed in a quoted text.

use crate::written::is_written;
use plant_model::Answer;
use plant_types::Fault;
use plant_wire_answer::{push_quoted, render};
use std::alloc::Global;
use std::process::Abort;

const MEMORY: &[u8] =
    b"HTTP/1.1 503 Service Unavailable\r\nContent-Type: application/json\r\nContent-Length: 18\r\n\r\n{\"fault\":\"Memory\"}";

const STORE: &[u8] =
    b"HTTP/1.1 503 Service Unavailable\r\nContent-Type: application/json\r\nContent-Length: 17\r\n\r\n{\"fault\":\"Store\"}";

/// The fault is answered with these bytes.
fn is_rendered(rt: &impl Abort, alloc: Global, fault: Fault, wanted: &[u8]) {
    let answer = Answer::Fault(fault);
    let found = render(alloc, &answer).expect(rt, "memory");
    drop(answer);
    is_written(rt, &found, wanted);
}

#[test]
fn renders_faults(rt: HostRuntime) {
    is_rendered(&rt, rt.alloc(), Fault::Memory, MEMORY);
    is_rendered(&rt, rt.alloc(), Fault::Store, STORE);
}

#[test]
fn escapes_no_line_feed(rt: HostRuntime) {
    let mut out = Vec::new(rt.alloc());
    push_quoted(&mut out, b"a\n").expect(&rt, "memory");
    is_written(&rt, &out, b"\"a\n\"");
}
