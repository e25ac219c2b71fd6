//! The worked examples of changes and records as data, in the notation of `exchanges`.

use crate::examples::{BASE, Example};

/// An engineer who approves nothing of his own, a second approver, and a second unit with an engineer and an alarm.
pub const STAFFED: &str = r#"ste 08:00:00 POST /units/U1/grants {"person":"abe","role":"Engineer"}
200 {"done":true}

ste 08:00:00 POST /units/U1/grants {"person":"amy","role":"Approver"}
200 {"done":true}

root 08:00:00 POST /units/U2 {"steward":"ste","bands":[300],"cells":[["P3","P4"],["P1","P2"]]}
200 {"done":true}

ste 08:00:00 POST /units/U2/grants {"person":"eve","role":"Engineer"}
200 {"done":true}

eve 08:00:00 POST /units/U2/alarms {"tag":"FT-7","latching":false,"max":3600}
200 {"done":true}"#;

/// Three proposals of one record: approved, taken back and rejected.
pub const REVIEWED: &str =
    r#"abe 09:00:00 POST /units/U1/changes {"kind":"record","base":0,"tag":"PT-101","cause":"seal leak","consequence":"loss of pressure","action":"close XV-7","severity":2,"response":120}
200 {"number":1}

eve 09:00:00 POST /units/U2/changes {"kind":"record","base":0,"tag":"FT-7","cause":"seal leak","consequence":"loss of pressure","action":"close XV-7","severity":2,"response":120}
200 {"number":1}

eve 09:00:00 POST /units/U1/changes {"kind":"record","base":0,"tag":"PT-101","cause":"seal leak","consequence":"loss of pressure","action":"close XV-7","severity":2,"response":120}
200 {"number":2}

vic 09:00:00 GET /units/U1/changes/1
200 {"base":0,"content":{"action":"close XV-7","cause":"seal leak","consequence":"loss of pressure","response":120,"severity":2},"decided":null,"decider":null,"kind":"record","number":1,"proposed":"2026-03-01T09:00:00Z","proposer":"abe","state":"Proposed","tag":"PT-101"}

abe 09:00:00 POST /units/U1/changes/1/approve
409 {"name":"SamePerson","refused":19}

eve 09:00:00 POST /units/U1/changes/1/approve
403 {"name":"RoleLacking","refused":4,"value":"Approver"}

amy 09:00:00 POST /units/U1/changes/1/approve
200 {"done":true}

amy 09:00:00 POST /units/U1/changes/2/approve
409 {"name":"BaseChanged","refused":21,"value":1}

amy 09:00:00 POST /units/U1/changes/1/approve
409 {"name":"NotProposed","refused":18,"value":"Approved"}

abe 09:00:00 POST /units/U1/changes/2/withdraw
409 {"name":"NotProposer","refused":20}

eve 09:00:00 POST /units/U1/changes/2/withdraw
200 {"done":true}

vic 09:00:00 GET /units/U1/changes/2
200 {"base":0,"content":{"action":"close XV-7","cause":"seal leak","consequence":"loss of pressure","response":120,"severity":2},"decided":"2026-03-01T09:00:00Z","decider":"eve","kind":"record","number":2,"proposed":"2026-03-01T09:00:00Z","proposer":"eve","state":"Withdrawn","tag":"PT-101"}

vic 09:00:00 GET /units/U1/changes/3
409 {"name":"ChangeUnknown","refused":17}

eve 09:00:00 POST /units/U1/changes {"kind":"record","base":1,"tag":"PT-101","cause":"seal leak","consequence":"loss of pressure","action":"close XV-7","severity":2,"response":120}
200 {"number":3}

abe 09:00:00 POST /units/U1/changes/3/reject
200 {"done":true}"#;

pub const RECORDED: &str = r#"vic 09:00:00 GET /units/U1/alarms/PT-101/record
200 {"action":"close XV-7","cause":"seal leak","change":1,"consequence":"loss of pressure","priority":"P1","response":120,"revision":1,"severity":2,"tag":"PT-101"}

vic 09:00:00 GET /units/U1/alarms
200 ALARMS U1 AT 2026-03-01T09:00:00Z COUNT 2
LT-2                     Normal         -  ---  86400
PT-101                   Normal         P1 ---   3600

eve 09:00:00 POST /units/U1/changes {"kind":"matrix","base":0,"bands":[60],"cells":[["P3","P4"],["P1","P2"]]}
200 {"number":4}

vic 09:00:00 GET /units/U1/alarms/PT-101/record
200 {"action":"close XV-7","cause":"seal leak","change":1,"consequence":"loss of pressure","priority":"P1","response":120,"revision":1,"severity":2,"tag":"PT-101"}

abe 09:00:00 POST /units/U1/changes/4/approve
200 {"done":true}

vic 09:00:00 GET /units/U1/alarms/PT-101/record
200 {"action":"close XV-7","cause":"seal leak","change":1,"consequence":"loss of pressure","priority":"P2","response":120,"revision":1,"severity":2,"tag":"PT-101"}

vic 09:00:00 GET /units/U1/alarms
200 ALARMS U1 AT 2026-03-01T09:00:00Z COUNT 2
LT-2                     Normal         -  ---  86400
PT-101                   Normal         P2 ---   3600

vic 09:00:00 GET /units/U1/changes/4
200 {"base":0,"content":{"bands":[60],"cells":[["P3","P4"],["P1","P2"]]},"decided":"2026-03-01T09:00:00Z","decider":"abe","kind":"matrix","number":4,"proposed":"2026-03-01T09:00:00Z","proposer":"eve","state":"Approved","tag":null}

eve 09:00:00 POST /units/U1/changes {"kind":"matrix","base":1,"bands":[300],"cells":[["P3","P4"]]}
409 {"name":"OutsideMatrix","refused":22}

vic 09:00:00 GET /units/U1/alarms/LT-2/record
409 {"name":"RecordUnknown","refused":24}

eve 09:00:00 POST /units/U1/changes {"kind":"record","base":0,"tag":"LT-2","cause":"seal leak","consequence":"loss of pressure","action":"close XV-7","severity":3,"response":120}
409 {"name":"OutsideMatrix","refused":22}"#;

const NO_ALARM_NEEDED: &str =
    r#"root 08:00:00 POST /units/U4 {"steward":"ste","bands":[],"cells":[["N"]]}
200 {"done":true}

ste 08:00:00 POST /units/U4/grants {"person":"ste","role":"Engineer"}
200 {"done":true}

ste 08:00:00 POST /units/U4/alarms {"tag":"FT-7","latching":false,"max":3600}
200 {"done":true}

ste 09:00:00 POST /units/U4/changes {"kind":"record","base":0,"tag":"FT-7","cause":"seal leak","consequence":"loss of pressure","action":"close XV-7","severity":1,"response":120}
409 {"name":"NotAnAlarm","refused":23}"#;

const LIMITED: &str = r#"ann 10:00:00 POST /units/U1/alarms/PT-101/one-shot-shelve {"words":"x"}
200 {"done":true}

eve 10:10:00 POST /units/U1/changes {"kind":"limit","base":0,"tag":"PT-101","max":600}
200 {"number":1}

abe 10:10:00 POST /units/U1/changes/1/approve
200 {"done":true}

ann 10:59:59 GET /units/U1/alarms/PT-101
200 {"limit":600,"limit_revision":1,"out_of_service":false,"shelf":"OneShotShelved","shelf_left":1,"state":"Normal","suppressed":false,"suppressed_or_shelved":true,"tag":"PT-101"}

ann 11:00:00 GET /units/U1/alarms/PT-101
200 {"limit":600,"limit_revision":1,"out_of_service":false,"shelf":"Unshelved","shelf_left":0,"state":"Normal","suppressed":false,"suppressed_or_shelved":false,"tag":"PT-101"}

ann 11:00:00 POST /units/U1/alarms/PT-101/timed-shelve {"seconds":601,"words":"x"}
409 {"name":"ShelvingTimeOutOfRange","refused":9,"value":600}

vic 11:00:00 GET /units/U1/changes/1
200 {"base":0,"content":{"max":600},"decided":"2026-03-01T10:10:00Z","decider":"abe","kind":"limit","number":1,"proposed":"2026-03-01T10:10:00Z","proposer":"eve","state":"Approved","tag":"PT-101"}

ann 11:00:00 POST /units/U1/alarms/PT-101/timed-shelve {"seconds":600,"words":"x"}
200 {"done":true}"#;

const FALLEN: &str =
    r#"eve 09:00:00 POST /units/U1/changes {"kind":"matrix","base":0,"bands":[60],"cells":[["P3","N"],["P1","N"]]}
200 {"number":4}

amy 09:00:00 POST /units/U1/changes/4/approve
200 {"done":true}

vic 09:00:00 GET /units/U1/alarms/PT-101/record
200 {"action":"close XV-7","cause":"seal leak","change":1,"consequence":"loss of pressure","priority":"N","response":120,"revision":1,"severity":2,"tag":"PT-101"}

vic 09:00:00 GET /units/U1/alarms
200 ALARMS U1 AT 2026-03-01T09:00:00Z COUNT 2
LT-2                     Normal         -  ---  86400
PT-101                   Normal         N  ---   3600

eve 09:00:00 POST /units/U1/changes {"kind":"matrix","base":0,"bands":[60],"cells":[["P3","P4"],["P1","P2"]]}
409 {"name":"BaseChanged","refused":21,"value":1}"#;

const NOT_THERE: &str =
    r#"eve 09:00:00 POST /units/U1/changes {"kind":"limit","base":0,"tag":"NO-1","max":600}
409 {"name":"AlarmUnknown","refused":8}

eve 09:00:00 POST /units/U1/changes {"kind":"record","base":3,"tag":"NO-1","cause":"c","consequence":"d","action":"e","severity":5,"response":1}
409 {"name":"AlarmUnknown","refused":8}

eve 09:00:00 POST /units/U1/changes {"kind":"limit","base":1,"tag":"PT-101","max":600}
409 {"name":"BaseChanged","refused":21,"value":0}

vic 09:00:00 GET /units/U1/alarms/NO-1/record
409 {"name":"AlarmUnknown","refused":8}

abe 09:00:00 POST /units/U1/changes/1/approve
409 {"name":"ChangeUnknown","refused":17}

abe 09:00:00 POST /units/U1/changes/99999/reject
409 {"name":"ChangeUnknown","refused":17}

ann 09:00:00 POST /units/U1/changes {"kind":"limit","base":0,"tag":"PT-101","max":600}
403 {"name":"RoleLacking","refused":4,"value":"Engineer"}

zed 09:00:00 GET /units/U1/changes/1
403 {"name":"NotGranted","refused":3}"#;

const MALFORMED: &str = r#"abe 09:00:00 POST /units/U1/changes/0/approve
400 {"cause":"BadPath","malformed":9}

abe 09:00:00 POST /units/U1/changes/01/reject
400 {"cause":"BadPath","malformed":9}

eve 09:00:00 POST /units/U1/changes/100000/withdraw
400 {"cause":"BadPath","malformed":9}

vic 09:00:00 GET /units/U1/changes/one
400 {"cause":"BadPath","malformed":9}

eve 09:00:00 POST /units/U1/changes {"kind":"limit","tag":"PT-101","max":600}
400 {"cause":"BadBody","malformed":10}

eve 09:00:00 POST /units/U1/changes {"kind":"limit","base":20001,"tag":"PT-101","max":600}
400 {"cause":"BadBody","malformed":10}

eve 09:00:00 POST /units/U1/changes {"kind":"colour","base":0,"tag":"PT-101","max":600}
400 {"cause":"BadBody","malformed":10}

eve 09:00:00 POST /units/U1/changes {"kind":"record","base":0,"tag":"PT-101","cause":"c","consequence":"d","action":"e","severity":6,"response":1}
400 {"cause":"BadBody","malformed":10}

eve 09:00:00 POST /units/U1/changes {"kind":"matrix","base":0,"bands":[],"cells":[["P1","P4"]]}
400 {"cause":"MatrixShape","malformed":11}

eve 09:00:00 POST /units/U1/changes {"kind":"matrix","base":0,"bands":[300,300],"cells":[["P1","P2","P3"]]}
400 {"cause":"BandsNotRising","malformed":12}

eve 09:00:00 POST /units/U1/changes {"kind":"matrix","base":0,"bands":[300],"cells":[["P1","P4"],["P2","P2"]]}
400 {"cause":"NotOrdered","malformed":13}"#;

const CHANGED: [Example; 7] = [
    (
        "a proposer, a second engineer and two approvers",
        &[BASE, STAFFED],
        REVIEWED,
    ),
    (
        "a record, and a matrix that turns its priority",
        &[BASE, STAFFED, REVIEWED],
        RECORDED,
    ),
    ("a matrix that needs no alarm", &[], NO_ALARM_NEEDED),
    (
        "a limit that ends no shelf and bounds the next",
        &[BASE],
        LIMITED,
    ),
    (
        "a record whose alarm is needed no longer",
        &[BASE, STAFFED, REVIEWED],
        FALLEN,
    ),
    ("alarms and changes that are not there", &[BASE], NOT_THERE),
    ("malformed changes", &[BASE], MALFORMED),
];

/// The examples of changes.
pub fn examples_of_changes() -> &'static [Example] {
    &CHANGED
}
