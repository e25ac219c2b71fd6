//! Clients: what each sends, in which portions, and how it goes away.

use std::alloc::Global;
use std::process::Abort;

/// What a client does after all its bytes were read.
#[derive(Clone, Copy, Debug, PartialEq, Eq)]
pub(crate) enum Manner {
    /// It sends no more, and reads all its answers.
    Ends,
    /// Its connection breaks.
    Breaks,
    /// It is silent.
    Waits,
}

/// A client.
#[derive(Drop)]
pub(crate) struct Client {
    pub(crate) bytes: Vec<u8>,
    pub(crate) manner: Manner,
    /// How many bytes of its answers it takes before it breaks.
    pub(crate) takes: usize,
}

/// The next pseudo-random number.
pub(crate) fn next_number(seed: &mut u64) -> u64 {
    *seed = seed
        .wrapping_mul(6_364_136_223_846_793_005)
        .wrapping_add(1_442_695_040_888_963_407);
    *seed >> 33
}

/// The requests of one unit, which no other client knows.
fn requests(rt: &impl Abort, alloc: Global, unit: u64, out: &mut Vec<u8>) {
    let parts = [
        (
            "POST /units/U",
            " HTTP/1.1\r\nX-Person: root\r\nX-Moment: 2026-03-01T08:00:00Z\r\nContent-Length: 65\r\n\r\n{\"steward\":\"ste\",\"bands\":[300],\"cells\":[[\"P3\",\"P4\"],[\"P1\",\"P2\"]]}",
        ),
        (
            "POST /units/U",
            "/grants HTTP/1.1\r\nX-Person: ste\r\nX-Moment: 2026-03-01T08:00:00Z\r\nContent-Length: 34\r\n\r\n{\"person\":\"ann\",\"role\":\"Operator\"}",
        ),
        (
            "POST /units/U",
            "/grants HTTP/1.1\r\nX-Person: ste\r\nX-Moment: 2026-03-01T08:00:00Z\r\nContent-Length: 34\r\n\r\n{\"person\":\"eve\",\"role\":\"Engineer\"}",
        ),
        (
            "POST /units/U",
            "/alarms HTTP/1.1\r\nX-Person: eve\r\nX-Moment: 2026-03-01T08:00:00Z\r\nContent-Length: 44\r\n\r\n{\"tag\":\"PT-101\",\"latching\":false,\"max\":3600}",
        ),
        (
            "GET /units/U",
            "/alarms/PT-101 HTTP/1.1\r\nX-Person: ann\r\nX-Moment: 2026-03-01T10:59:59Z\r\n\r\n",
        ),
        ("GET /nothing", " HTTP/1.0\r\n\r\n"),
        (
            "GET /units/U",
            "/shelves HTTP/1.1\r\nX-Person: ann\r\nX-Moment: 2026-03-01T11:00:00Z\r\n\r\n",
        ),
    ];
    for (front, rest) in parts {
        let text = format!(in alloc; "{front}{unit}{rest}").expect(rt, "memory");
        out.extend_from_slice(text.as_bytes()).expect(rt, "memory");
    }
}

/// A random client: its requests whole, cut, or followed by something that cannot be read.
pub(crate) fn client_of(rt: &impl Abort, alloc: Global, seed: &mut u64, unit: u64) -> Client {
    let mut bytes = Vec::new(alloc);
    requests(rt, alloc, unit, &mut bytes);
    match next_number(seed) % 4 {
        0 => {
            let count = next_number(seed) as usize % 1024;
            bytes.truncate(count);
        }
        1 => bytes
            .extend_from_slice(b"\0\x01 what is this\r\n\r\n")
            .expect(rt, "memory"),
        _ => {}
    }
    let manner = match next_number(seed) % 4 {
        0 => Manner::Breaks,
        1 => Manner::Waits,
        _ => Manner::Ends,
    };
    let takes = match next_number(seed) % 4 {
        0 => next_number(seed) as usize % 900,
        _ => usize::MAX,
    };
    Client {
        bytes,
        manner,
        takes,
    }
}
