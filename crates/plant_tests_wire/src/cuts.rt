//! Requests are answered the same however the reads and the writes are cut.

use crate::exchanges::{ANSWERS, REQUESTS};
use crate::streams::{NEVER, feed_of, is_answered, joined, sink_of};
use plant_wire::End;

/// How many bytes a read gives and a write takes.
const PORTIONS: [(usize, usize); 6] = [
    (4096, 4096),
    (1, 1),
    (100, 7),
    (13, 200),
    (4096, 1),
    (4096, 7),
];

#[test]
fn answers_the_first_shelf(rt: HostRuntime) {
    let alloc = rt.alloc();
    let wanted = joined(&rt, alloc, &ANSWERS);
    assert_eq!(rt; wanted.len(), 1568);
    for (most, put) in PORTIONS {
        let inlet = feed_of(joined(&rt, alloc, &REQUESTS), most, NEVER);
        let outlet = sink_of(alloc, put, NEVER);
        is_answered(&rt, alloc, inlet, outlet, &wanted, End::Closed);
    }
}
