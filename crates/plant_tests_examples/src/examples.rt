//! The worked examples as data, in the notation of `exchanges`.

/// An example: its title, what goes before it, and its own exchanges.
pub type Example = (&'static str, &'static [&'static str], &'static str);

/// The office in which most examples begin: one unit, its steward and five persons with a role each, and two alarms.
pub const BASE: &str =
    r#"root 08:00:00 POST /units/U1 {"steward":"ste","bands":[300],"cells":[["P3","P4"],["P1","P2"]]}
200 {"done":true}

ste 08:00:00 POST /units/U1/grants {"person":"ann","role":"Operator"}
200 {"done":true}

ste 08:00:00 POST /units/U1/grants {"person":"eve","role":"Engineer"}
200 {"done":true}

ste 08:00:00 POST /units/U1/grants {"person":"abe","role":"Approver"}
200 {"done":true}

ste 08:00:00 POST /units/U1/grants {"person":"moe","role":"Maintainer"}
200 {"done":true}

ste 08:00:00 POST /units/U1/grants {"person":"vic","role":"Viewer"}
200 {"done":true}

eve 08:00:00 POST /units/U1/alarms {"tag":"PT-101","latching":false,"max":3600}
200 {"done":true}

eve 08:00:00 POST /units/U1/alarms {"tag":"LT-2","latching":true,"max":86400}
200 {"done":true}"#;

/// A timed shelf of an hour, at ten.
pub const SHELVED: &str =
    r#"ann 10:00:00 POST /units/U1/alarms/PT-101/timed-shelve {"seconds":3600,"words":"pump test"}
200 {"done":true}"#;

/// The requests for that shelf in its last second and at its end, and their answers.
pub const LOOKED_AT: &str = r#"ann 10:59:59 GET /units/U1/alarms/PT-101
200 {"limit":3600,"limit_revision":0,"out_of_service":false,"shelf":"TimedShelved","shelf_left":1,"state":"Normal","suppressed":false,"suppressed_or_shelved":true,"tag":"PT-101"}

ann 11:00:00 GET /units/U1/alarms/PT-101
200 {"limit":3600,"limit_revision":0,"out_of_service":false,"shelf":"Unshelved","shelf_left":0,"state":"Normal","suppressed":false,"suppressed_or_shelved":false,"tag":"PT-101"}

ann 10:59:59 GET /units/U1/shelves
200 SHELVES U1 AT 2026-03-01T10:59:59Z COUNT 1
PT-101                   timed    2026-03-01T10:00:00Z      1 ann                              pump test

ann 11:00:00 GET /units/U1/shelves
200 SHELVES U1 AT 2026-03-01T11:00:00Z COUNT 0"#;

/// A unit in which two alarms may be shelved at once, its operator and engineer, and three alarms.
pub const QUOTA: &str =
    r#"root 08:00:00 POST /units/U3 {"steward":"ste","bands":[300],"cells":[["P3","P4"],["P1","P2"]],"quota":2}
200 {"done":true}

ste 08:00:00 POST /units/U3/grants {"person":"ann","role":"Operator"}
200 {"done":true}

ste 08:00:00 POST /units/U3/grants {"person":"eve","role":"Engineer"}
200 {"done":true}

eve 08:00:00 POST /units/U3/alarms {"tag":"A-1","latching":false,"max":3600}
200 {"done":true}

eve 08:00:00 POST /units/U3/alarms {"tag":"A-2","latching":false,"max":3600}
200 {"done":true}

eve 08:00:00 POST /units/U3/alarms {"tag":"A-3","latching":false,"max":3600}
200 {"done":true}"#;

const NO_UNITS: &str = r#"vic 08:00:00 GET /units
200 {"units":[]}"#;

const OPENINGS: &str =
    r#"bob 08:00:00 POST /units/U1 {"steward":"ste","bands":[300],"cells":[["P3","P4"],["P1","P2"]]}
403 {"name":"NotAdministrator","refused":1}

root 08:00:00 POST /units/U1 {"steward":"ste","bands":[300],"cells":[["P3","P4"],["P1","P2"]]}
200 {"done":true}

root 08:00:00 POST /units/U1 {"steward":"ste","bands":[300],"cells":[["P3","P4"],["P1","P2"]]}
409 {"name":"UnitTaken","refused":2}

bob 08:00:00 POST /units/U1 {"steward":"ste","bands":[300],"cells":[["P3","P4"],["P1","P2"]]}
403 {"name":"NotAdministrator","refused":1}"#;

const STRANGER: &str = r#"bob 07:00:00 GET /units/U1/alarms/PT-101
403 {"name":"NotGranted","refused":3}

bob 07:00:00 GET /units/U9/alarms/PT-101
403 {"name":"NotGranted","refused":3}"#;

const LONGER: &str =
    r#"ann 10:30:00 POST /units/U1/alarms/PT-101/timed-shelve {"seconds":3601,"words":"x"}
409 {"name":"ShelvingTimeOutOfRange","refused":9,"value":3600}"#;

const AGAIN: &str =
    r#"ann 10:30:00 POST /units/U1/alarms/PT-101/timed-shelve {"seconds":3600,"words":"pump test"}
409 {"name":"ConditionAlreadyShelved","refused":10}

ann 11:00:00 POST /units/U1/alarms/PT-101/timed-shelve {"seconds":3600,"words":"pump test"}
200 {"done":true}

ann 10:59:59 POST /units/U1/alarms/PT-101/timed-shelve {"seconds":3600,"words":"pump test"}
409 {"name":"MomentBehind","refused":5,"value":"2026-03-01T11:00:00Z"}"#;

const SWITCHED: &str =
    r#"ann 10:10:00 POST /units/U1/alarms/PT-101/one-shot-shelve {"words":"pump test"}
200 {"done":true}

ann 10:10:00 POST /units/U1/alarms/PT-101/one-shot-shelve {"words":"pump test"}
409 {"name":"ConditionAlreadyShelved","refused":10}

ann 10:10:00 POST /units/U1/alarms/PT-101/timed-shelve {"seconds":60,"words":"pump test"}
200 {"done":true}

ann 10:10:00 POST /units/U1/alarms/PT-101/unshelve
200 {"done":true}

ann 10:10:00 POST /units/U1/alarms/PT-101/unshelve
409 {"name":"ConditionNotShelved","refused":11}"#;

const FAR_AHEAD: &str =
    r#"root 08:00:00 POST /units/U2 {"steward":"ste","bands":[300],"cells":[["P3","P4"],["P1","P2"]]}
200 {"done":true}

ste 2099-12-31T23:59:59Z POST /units/U2/grants {"person":"vic","role":"Viewer"}
200 {"done":true}"#;

const MATRICES: &str =
    r#"root 08:00:00 POST /units/U1 {"steward":"ste","bands":[300],"cells":[["P1","P4"],["P2","P2"]]}
400 {"cause":"NotOrdered","malformed":13}

root 08:00:00 POST /units/U1 {"steward":"ste","bands":[300,300],"cells":[["P3","P4","P4"],["P1","P2","P2"]]}
400 {"cause":"BandsNotRising","malformed":12}

root 08:00:00 POST /units/U1 {"steward":"ste","bands":[],"cells":[["P1","P2"]]}
400 {"cause":"MatrixShape","malformed":11}"#;

const STEWARDS: &str = r#"ste 08:00:00 POST /units/U1/withdrawals {"person":"ste","role":"Steward"}
409 {"name":"LastSteward","refused":16}

ste 08:00:00 POST /units/U1/withdrawals {"person":"bob","role":"Viewer"}
409 {"name":"NotHeld","refused":15}

ste 08:00:00 POST /units/U1/grants {"person":"ann","role":"Operator"}
409 {"name":"AlreadyHeld","refused":14}

ste 08:00:00 POST /units/U1/grants {"person":"sue","role":"Steward"}
200 {"done":true}

ste 08:00:00 POST /units/U1/withdrawals {"person":"ste","role":"Steward"}
200 {"done":true}

ste 08:00:00 GET /units/U1/alarms/PT-101
403 {"name":"NotGranted","refused":3}"#;

const QUOTA_REACHED: &str =
    r#"ann 10:00:00 POST /units/U3/alarms/A-1/timed-shelve {"seconds":60,"words":"x"}
200 {"done":true}

ann 10:00:00 POST /units/U3/alarms/A-2/one-shot-shelve {"words":"x"}
200 {"done":true}

ann 10:00:00 POST /units/U3/alarms/A-3/timed-shelve {"seconds":60,"words":"x"}
409 {"name":"ShelfQuota","refused":27,"value":2}

ann 10:01:00 POST /units/U3/alarms/A-3/timed-shelve {"seconds":60,"words":"x"}
200 {"done":true}

ann 10:01:30 POST /units/U3/alarms/A-1/one-shot-shelve {"words":"x"}
409 {"name":"ShelfQuota","refused":27,"value":2}

ann 10:01:30 POST /units/U3/alarms/A-1/timed-shelve {"seconds":3601,"words":"x"}
409 {"name":"ShelvingTimeOutOfRange","refused":9,"value":3600}

ann 10:01:30 POST /units/U3/alarms/A-3/one-shot-shelve {"words":"x"}
200 {"done":true}"#;

const ENDED_GRANT: &str =
    r#"ste 09:00:00 POST /units/U1/grants {"person":"con","role":"Viewer","end":"2026-03-01T12:00:00Z"}
200 {"done":true}

ste 11:59:59 POST /units/U1/grants {"person":"con","role":"Viewer"}
409 {"name":"AlreadyHeld","refused":14}

con 11:59:59 GET /units/U1/alarms/PT-101
200 {"limit":3600,"limit_revision":0,"out_of_service":false,"shelf":"Unshelved","shelf_left":0,"state":"Normal","suppressed":false,"suppressed_or_shelved":false,"tag":"PT-101"}

con 12:00:00 GET /units/U1/alarms/PT-101
403 {"name":"NotGranted","refused":3}

con 11:59:59 GET /units
200 {"units":[{"roles":["Viewer"],"unit":"U1"}]}

con 12:00:00 GET /units
200 {"units":[]}

ste 12:00:00 POST /units/U1/grants {"person":"con","role":"Operator","end":"2026-03-01T12:00:00Z"}
409 {"name":"EndNotAhead","refused":28}

ste 12:00:00 POST /units/U1/grants {"person":"con","role":"Viewer"}
200 {"done":true}

ste 12:00:00 POST /units/U1/grants {"person":"con","role":"Viewer","end":"2026-03-01T12:00:00Z"}
409 {"name":"AlreadyHeld","refused":14}

con 11:59:59 GET /units/U1/alarms/PT-101
409 {"name":"MomentBehind","refused":5,"value":"2026-03-01T12:00:00Z"}

ste 12:00:00 POST /units/U1/grants {"person":"dan","role":"Viewer","end":"2026-03-01T13:00:00Z"}
200 {"done":true}

ste 14:00:00 POST /units/U1/withdrawals {"person":"dan","role":"Viewer"}
200 {"done":true}

ste 14:00:00 POST /units/U1/withdrawals {"person":"dan","role":"Viewer"}
409 {"name":"NotHeld","refused":15}

ste 14:00:00 POST /units/U1/grants {"person":"dan","role":"Steward","end":"2026-03-01T15:00:00Z"}
400 {"cause":"BadBody","malformed":10}"#;

const SERVICE: &str =
    r#"moe 10:00:00 POST /units/U1/alarms/PT-101/remove-from-service {"words":"valve"}
200 {"done":true}

moe 10:00:00 GET /units/U1/alarms/PT-101
200 {"limit":3600,"limit_revision":0,"out_of_service":true,"shelf":"Unshelved","shelf_left":0,"state":"Normal","suppressed":false,"suppressed_or_shelved":true,"tag":"PT-101"}

moe 10:00:00 POST /units/U1/alarms/PT-101/remove-from-service {"words":"valve"}
409 {"name":"AlreadyOutOfService","refused":12}

ann 10:00:00 POST /units/U1/alarms/LT-2/remove-from-service {"words":"valve"}
403 {"name":"RoleLacking","refused":4,"value":"Maintainer"}

moe 10:00:00 POST /units/U1/alarms/LT-3/remove-from-service {"words":"valve"}
409 {"name":"AlarmUnknown","refused":8}

ann 10:00:00 POST /units/U1/alarms/PT-101/timed-shelve {"seconds":60,"words":"x"}
200 {"done":true}

moe 10:00:00 POST /units/U1/alarms/PT-101/place-in-service
200 {"done":true}

moe 10:00:00 POST /units/U1/alarms/PT-101/place-in-service
409 {"name":"NotOutOfService","refused":13}

moe 10:00:00 GET /units/U1/alarms/PT-101
200 {"limit":3600,"limit_revision":0,"out_of_service":false,"shelf":"TimedShelved","shelf_left":60,"state":"Normal","suppressed":false,"suppressed_or_shelved":true,"tag":"PT-101"}"#;

const LISTS: &str =
    r#"ann 10:00:00 POST /units/U1/alarms/PT-101/timed-shelve {"seconds":60,"words":"x"}
200 {"done":true}

moe 10:00:00 POST /units/U1/alarms/LT-2/remove-from-service {"words":"valve"}
200 {"done":true}

vic 10:00:00 GET /units/U1/alarms
200 ALARMS U1 AT 2026-03-01T10:00:00Z COUNT 2
LT-2                     Normal         -  --O  86400
PT-101                   Normal         -  S--   3600

vic 10:01:00 GET /units/U1/alarms
200 ALARMS U1 AT 2026-03-01T10:01:00Z COUNT 2
LT-2                     Normal         -  --O  86400
PT-101                   Normal         -  ---   3600

vic 10:01:00 GET /units/U1/standing
200 STANDING U1 AT 2026-03-01T10:01:00Z COUNT 0

bob 10:01:00 GET /units/U1/alarms
403 {"name":"NotGranted","refused":3}

vic 09:59:59 GET /units/U1/standing
409 {"name":"MomentBehind","refused":5,"value":"2026-03-01T10:00:00Z"}"#;

/// A second unit, in which ann has three roles, with an alarm of its own; and a shelf in each of the two.
const TWO_UNITS: &str =
    r#"root 08:00:00 POST /units/U2 {"steward":"ste","bands":[300],"cells":[["P3","P4"],["P1","P2"]]}
200 {"done":true}

ste 08:00:00 POST /units/U2/grants {"person":"ann","role":"Viewer"}
200 {"done":true}

ste 08:00:00 POST /units/U2/grants {"person":"ann","role":"Operator"}
200 {"done":true}

ste 08:00:00 POST /units/U2/grants {"person":"ann","role":"Maintainer"}
200 {"done":true}

ste 08:00:00 POST /units/U2/grants {"person":"eve","role":"Engineer"}
200 {"done":true}

eve 08:00:00 POST /units/U2/alarms {"tag":"FT-7","latching":false,"max":7200}
200 {"done":true}

ann 10:00:00 POST /units/U1/alarms/LT-2/timed-shelve {"seconds":10800,"words":"drain"}
200 {"done":true}

ann 12:00:00 POST /units/U2/alarms/FT-7/one-shot-shelve {"words":"wiring"}
200 {"done":true}"#;

const MY_SHELVES: &str = r#"ann 11:00:00 GET /shelves
409 {"name":"MomentBehind","refused":5,"value":"2026-03-01T12:00:00Z"}

ann 12:00:00 GET /shelves
200 MINE ann AT 2026-03-01T12:00:00Z COUNT 2
U1       LT-2                     timed    2026-03-01T10:00:00Z   3600 ann                              drain
U2       FT-7                     one-shot 2026-03-01T12:00:00Z   7200 ann                              wiring

vic 11:00:00 GET /shelves
200 MINE vic AT 2026-03-01T11:00:00Z COUNT 1
U1       LT-2                     timed    2026-03-01T10:00:00Z   7200 ann                              drain

ann 13:00:00 GET /shelves
200 MINE ann AT 2026-03-01T13:00:00Z COUNT 1
U2       FT-7                     one-shot 2026-03-01T12:00:00Z   3600 ann                              wiring

bob 07:00:00 GET /shelves
200 MINE bob AT 2026-03-01T07:00:00Z COUNT 0

ste 12:00:00 POST /units/U2/grants {"person":"con","role":"Viewer","end":"2026-03-01T12:30:00Z"}
200 {"done":true}

con 12:29:59 GET /shelves
200 MINE con AT 2026-03-01T12:29:59Z COUNT 1
U2       FT-7                     one-shot 2026-03-01T12:00:00Z   5401 ann                              wiring

con 12:30:00 GET /shelves
200 MINE con AT 2026-03-01T12:30:00Z COUNT 0"#;

/// The answers to a grant in a unit with 500 pairs: of a new pair and of an existing one.
pub const GRANTS_FULL: &str = r#"ste 08:00:00 POST /units/U1/grants {"person":"zed","role":"Viewer"}
409 {"name":"UnitFull","refused":6,"value":"Grants"}

ste 08:00:00 POST /units/U1/grants {"person":"ann","role":"Operator"}
409 {"name":"UnitFull","refused":6,"value":"Grants"}"#;

const WORKED: [Example; 16] = [
    ("no units", &[], NO_UNITS),
    ("opened once, by the administrator", &[], OPENINGS),
    ("a stranger's status", &[BASE], STRANGER),
    ("shelved for an hour", &[BASE, SHELVED], LOOKED_AT),
    ("shelved for too long", &[BASE, SHELVED], LONGER),
    ("shelved again at the end", &[BASE, SHELVED], AGAIN),
    ("from one shelf to another", &[BASE, SHELVED], SWITCHED),
    ("a unit far ahead", &[BASE, FAR_AHEAD, SHELVED], LOOKED_AT),
    ("tables that are not matrices", &[], MATRICES),
    ("the last steward", &[BASE], STEWARDS),
    ("no more shelves than the quota", &[QUOTA], QUOTA_REACHED),
    ("a grant that ends", &[BASE], ENDED_GRANT),
    ("a unit that is not there", &[], STRANGER),
    ("out of service and back", &[BASE], SERVICE),
    ("all alarms, and those that are active", &[BASE], LISTS),
    ("the shelves of two units", &[BASE, TWO_UNITS], MY_SHELVES),
];

/// The examples of calls other than imports and changes.
pub fn examples_of_calls() -> &'static [Example] {
    &WORKED
}
