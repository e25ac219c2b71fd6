//! If a read or a write fails, a session ends, and has written the answers that were due so far.

use crate::exchanges::{ANSWERS, REQUESTS};
use crate::streams::{NEVER, feed_of, is_answered, joined, run, sink_of};
use plant_wire::End;
use std::alloc::Global;
use std::ops::Range;
use std::process::Abort;

/// The answers to the requests that are whole within the first `count` bytes.
fn answers_within(rt: &impl Abort, alloc: Global, count: usize) -> Vec<u8> {
    let mut out = Vec::new(alloc);
    let mut end = 0usize;
    for (request, answer) in REQUESTS.iter().zip(ANSWERS.iter()) {
        end = end.saturating_add(request.len());
        if end <= count {
            out.extend_from_slice(answer).expect(rt, "memory");
        }
    }
    out
}

/// With reads of this many bytes, each of these reads fails in turn.
fn stops_at_each_read(rt: &impl Abort, alloc: Global, most: usize, reads: Range<usize>) {
    for read in reads {
        let inlet = feed_of(joined(rt, alloc, &REQUESTS), most, read);
        let outlet = sink_of(alloc, 4096, NEVER);
        let wanted = answers_within(rt, alloc, read.saturating_mul(most));
        is_answered(rt, alloc, inlet, outlet, &wanted, End::ReadFailed);
    }
}

/// With reads of this many bytes, the stream is read whole before this read.
fn has_no_read(rt: &impl Abort, alloc: Global, most: usize, read: usize) {
    let inlet = feed_of(joined(rt, alloc, &REQUESTS), most, read);
    let outlet = sink_of(alloc, 4096, NEVER);
    let wanted = joined(rt, alloc, &ANSWERS);
    is_answered(rt, alloc, inlet, outlet, &wanted, End::Closed);
}

// The stream of 1,616 bytes is read in 1,616 reads of a byte, or in 17 of a hundred bytes, and one more that returns
// nothing.

#[test]
fn stops_where_a_read_fails(rt: HostRuntime) {
    stops_at_each_read(&rt, rt.alloc(), 100, 0..18);
    has_no_read(&rt, rt.alloc(), 100, 18);
    stops_at_each_read(&rt, rt.alloc(), 1, 0..900);
}

#[test]
fn stops_where_a_later_read_fails(rt: HostRuntime) {
    stops_at_each_read(&rt, rt.alloc(), 1, 900..1617);
    has_no_read(&rt, rt.alloc(), 1, 1617);
}

/// The end of a session whose write after this many fails, what was written, and in how many writes.
#[derive(Drop)]
struct Written {
    end: End,
    bytes: Vec<u8>,
    puts: usize,
}

/// What a session wrote, in writes of at most this many bytes.
fn outcome(rt: &impl Abort, alloc: Global, most: usize, fails_at: usize) -> Written {
    let mut inlet = feed_of(joined(rt, alloc, &REQUESTS), 100, NEVER);
    let mut outlet = sink_of(alloc, most, fails_at);
    let end = run(rt, alloc, &mut inlet, &mut outlet);
    Written {
        end,
        bytes: outlet.bytes,
        puts: outlet.puts,
    }
}

/// Whether exactly the first answers, this many, were written.
fn wrote_answers(rt: &impl Abort, alloc: Global, written: &Written, count: usize) -> bool {
    let Some(answers) = ANSWERS.get(..count) else {
        return false;
    };
    written.bytes.as_slice() == joined(rt, alloc, answers).as_slice()
}

/// With writes of this many bytes, each of the writes fails in turn, and then none.
fn stops_at_each_write(rt: &impl Abort, alloc: Global, most: usize, writes: usize) {
    let whole = joined(rt, alloc, &ANSWERS);
    for write in 0..writes {
        let stopped = outcome(rt, alloc, most, write);
        assert_eq!(rt; stopped.end, End::WriteFailed, "write {write} of {most}");
        assert_eq!(rt; stopped.puts, write, "write {write} of {most}");
        assert!(rt;
            whole.starts_with(stopped.bytes.as_slice()),
            "write {write} of {most}"
        );
        assert!(rt; most > 1 || stopped.bytes.len() == write, "write {write}");
        assert!(rt;
            most < 4096 || wrote_answers(rt, alloc, &stopped, write),
            "write {write}"
        );
    }
    let ended = outcome(rt, alloc, most, writes);
    assert_eq!(rt; ended.end, End::Closed);
    assert!(rt; ended.bytes.as_slice() == whole.as_slice());
}

#[test]
fn stops_where_a_write_fails(rt: HostRuntime) {
    for (most, writes) in [(4096, 13), (100, 20), (7, 226), (1, 1568)] {
        stops_at_each_write(&rt, rt.alloc(), most, writes);
    }
}

#[test]
fn stops_where_a_write_takes_nothing(rt: HostRuntime) {
    let stopped = outcome(&rt, rt.alloc(), 0, NEVER);
    assert_eq!(rt; stopped.end, End::WriteFailed);
    assert_eq!(rt; stopped.puts, 1);
    assert!(rt; stopped.bytes.is_empty());
}
