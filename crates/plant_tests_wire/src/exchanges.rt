//! Requests and their answers, as bytes.

/// The requests of the first shelf: a unit is opened, roles are granted, alarms are registered, one is shelved.
pub(crate) const REQUESTS: [&[u8]; 13] = [
    b"POST /units/U1 HTTP/1.1\r\nX-Person: root\r\nX-Moment: 2026-03-01T08:00:00Z\r\nContent-Length: 65\r\n\r\n{\"steward\":\"ste\",\"bands\":[300],\"cells\":[[\"P3\",\"P4\"],[\"P1\",\"P2\"]]}",
    b"POST /units/U1/grants HTTP/1.1\r\nX-Person: ste\r\nX-Moment: 2026-03-01T08:00:00Z\r\nContent-Length: 34\r\n\r\n{\"person\":\"ann\",\"role\":\"Operator\"}",
    b"POST /units/U1/grants HTTP/1.1\r\nX-Person: ste\r\nX-Moment: 2026-03-01T08:00:00Z\r\nContent-Length: 34\r\n\r\n{\"person\":\"eve\",\"role\":\"Engineer\"}",
    b"POST /units/U1/grants HTTP/1.1\r\nX-Person: ste\r\nX-Moment: 2026-03-01T08:00:00Z\r\nContent-Length: 34\r\n\r\n{\"person\":\"abe\",\"role\":\"Approver\"}",
    b"POST /units/U1/grants HTTP/1.1\r\nX-Person: ste\r\nX-Moment: 2026-03-01T08:00:00Z\r\nContent-Length: 36\r\n\r\n{\"person\":\"moe\",\"role\":\"Maintainer\"}",
    b"POST /units/U1/grants HTTP/1.1\r\nX-Person: ste\r\nX-Moment: 2026-03-01T08:00:00Z\r\nContent-Length: 32\r\n\r\n{\"person\":\"vic\",\"role\":\"Viewer\"}",
    b"POST /units/U1/alarms HTTP/1.1\r\nX-Person: eve\r\nX-Moment: 2026-03-01T08:00:00Z\r\nContent-Length: 44\r\n\r\n{\"tag\":\"PT-101\",\"latching\":false,\"max\":3600}",
    b"POST /units/U1/alarms HTTP/1.1\r\nX-Person: eve\r\nX-Moment: 2026-03-01T08:00:00Z\r\nContent-Length: 42\r\n\r\n{\"tag\":\"LT-2\",\"latching\":true,\"max\":86400}",
    b"POST /units/U1/alarms/PT-101/timed-shelve HTTP/1.1\r\nX-Person: ann\r\nX-Moment: 2026-03-01T10:00:00Z\r\nContent-Length: 36\r\n\r\n{\"seconds\":3600,\"words\":\"pump test\"}",
    b"GET /units/U1/alarms/PT-101 HTTP/1.1\r\nX-Person: ann\r\nX-Moment: 2026-03-01T10:59:59Z\r\n\r\n",
    b"GET /units/U1/alarms/PT-101 HTTP/1.1\r\nX-Person: ann\r\nX-Moment: 2026-03-01T11:00:00Z\r\n\r\n",
    b"GET /units/U1/shelves HTTP/1.1\r\nX-Person: ann\r\nX-Moment: 2026-03-01T10:59:59Z\r\n\r\n",
    b"GET /units/U1/shelves HTTP/1.1\r\nX-Person: ann\r\nX-Moment: 2026-03-01T11:00:00Z\r\n\r\n",
];

const DONE: &[u8] =
    b"HTTP/1.1 200 OK\r\nContent-Type: application/json\r\nContent-Length: 13\r\n\r\n{\"done\":true}";

/// Their answers.
pub(crate) const ANSWERS: [&[u8]; 13] = [
    DONE,
    DONE,
    DONE,
    DONE,
    DONE,
    DONE,
    DONE,
    DONE,
    DONE,
    b"HTTP/1.1 200 OK\r\nContent-Type: application/json\r\nContent-Length: 174\r\n\r\n{\"limit\":3600,\"limit_revision\":0,\"out_of_service\":false,\"shelf\":\"TimedShelved\",\"shelf_left\":1,\"state\":\"Normal\",\"suppressed\":false,\"suppressed_or_shelved\":true,\"tag\":\"PT-101\"}",
    b"HTTP/1.1 200 OK\r\nContent-Type: application/json\r\nContent-Length: 172\r\n\r\n{\"limit\":3600,\"limit_revision\":0,\"out_of_service\":false,\"shelf\":\"Unshelved\",\"shelf_left\":0,\"state\":\"Normal\",\"suppressed\":false,\"suppressed_or_shelved\":false,\"tag\":\"PT-101\"}",
    b"HTTP/1.1 200 OK\r\nContent-Type: text/plain\r\nContent-Length: 148\r\n\r\nSHELVES U1 AT 2026-03-01T10:59:59Z COUNT 1\nPT-101                   timed    2026-03-01T10:00:00Z      1 ann                              pump test\n",
    b"HTTP/1.1 200 OK\r\nContent-Type: text/plain\r\nContent-Length: 43\r\n\r\nSHELVES U1 AT 2026-03-01T11:00:00Z COUNT 0\n",
];

pub(crate) const NOT_GRANTED: &[u8] =
    b"HTTP/1.1 403 Forbidden\r\nContent-Type: application/json\r\nContent-Length: 33\r\n\r\n{\"name\":\"NotGranted\",\"refused\":3}";

pub(crate) const NO_ROUTE: &[u8] =
    b"HTTP/1.1 404 Not Found\r\nContent-Type: application/json\r\nContent-Length: 33\r\n\r\n{\"cause\":\"NoRoute\",\"malformed\":6}";

pub(crate) const STATUS: &[u8] =
    b"GET /units/U1/alarms/PT-101 HTTP/1.1\r\nX-Person: bob\r\nX-Moment: 2026-03-01T07:00:00Z\r\n\r\n";

pub(crate) const NOTHING: &[u8] = b"GET /nothing HTTP/1.0\r\n\r\n";
