//! Forty calls on two units, over each keeper.

use plant_tests_examples::Exchanges;
use plant_tests_sites::{check_keepers, check_session, lists, tables};
use std::process::Abort;

/// Three persons, two units and the administrator: ann is in U1, bea in U2, and cal in U1 until ten.
const FORTY_CALLS: &str =
    r#"root 08:00:00 POST /units/U1 {"steward":"ann","bands":[300],"cells":[["P3","P4"],["P1","P2"]],"quota":1}
200 {"done":true}

root 08:00:00 POST /units/U2 {"steward":"bea","bands":[300],"cells":[["P3","P4"],["P1","P2"]]}
200 {"done":true}

ann 08:00:00 POST /units/U3 {"steward":"ann","bands":[300],"cells":[["P3","P4"],["P1","P2"]]}
403 {"name":"NotAdministrator","refused":1}

root 08:00:01 POST /units/U1 {"steward":"bea","bands":[300],"cells":[["P3","P4"],["P1","P2"]]}
409 {"name":"UnitTaken","refused":2}

ann 08:00:10 POST /units/U1/grants {"person":"ann","role":"Operator"}
200 {"done":true}

ann 08:00:10 POST /units/U1/grants {"person":"ann","role":"Engineer"}
200 {"done":true}

bea 08:00:10 POST /units/U2/grants {"person":"bea","role":"Engineer"}
200 {"done":true}

bea 08:00:20 POST /units/U2/grants {"person":"bea","role":"Operator"}
200 {"done":true}

ann 08:00:20 POST /units/U1/grants {"person":"cal","role":"Viewer","end":"2026-03-01T10:00:00Z"}
200 {"done":true}

bea 08:00:20 POST /units/U1/grants {"person":"bea","role":"Viewer"}
403 {"name":"NotGranted","refused":3}

cal 08:00:30 GET /units/U1/alarms/A-1
409 {"name":"AlarmUnknown","refused":8}

ann 08:01:00 POST /units/U1/alarms {"tag":"A-1","latching":false,"max":3600}
200 {"done":true}

bea 08:01:00 POST /units/U2/alarms {"tag":"B-1","latching":true,"max":600}
200 {"done":true}

ann 08:01:00 POST /units/U1/alarms {"tag":"A-2","latching":false,"max":7200}
200 {"done":true}

bea 08:01:30 POST /units/U2/alarms {"tag":"B-1","latching":true,"max":600}
409 {"name":"AlarmTaken","refused":7}

cal 08:02:00 POST /units/U1/alarms {"tag":"C-1","latching":false,"max":60}
403 {"name":"RoleLacking","refused":4,"value":"Engineer"}

ann 09:00:00 POST /units/U1/alarms/A-1/timed-shelve {"seconds":3600,"words":"pump test"}
200 {"done":true}

bea 09:00:00 POST /units/U2/alarms/B-1/one-shot-shelve {"words":"wiring"}
200 {"done":true}

cal 09:30:00 GET /units/U1/shelves
200 SHELVES U1 AT 2026-03-01T09:30:00Z COUNT 1
A-1                      timed    2026-03-01T09:00:00Z   1800 ann                              pump test

bea 09:05:00 GET /units/U2/shelves
200 SHELVES U2 AT 2026-03-01T09:05:00Z COUNT 1
B-1                      one-shot 2026-03-01T09:00:00Z    300 bea                              wiring

cal 09:30:00 GET /units/U2/shelves
403 {"name":"NotGranted","refused":3}

ann 09:30:00 POST /units/U1/alarms/A-1/timed-shelve {"seconds":60,"words":"x"}
409 {"name":"ConditionAlreadyShelved","refused":10}

ann 09:30:00 POST /units/U1/alarms/A-2/timed-shelve {"seconds":7201,"words":"x"}
409 {"name":"ShelvingTimeOutOfRange","refused":9,"value":7200}

ann 08:59:00 POST /units/U1/alarms/A-1/unshelve
409 {"name":"MomentBehind","refused":5,"value":"2026-03-01T09:00:00Z"}

bea 09:10:00 POST /units/U2/alarms/B-1/unshelve
409 {"name":"ConditionNotShelved","refused":11}

ann 09:40:00 POST /units/U1/alarms/A-2/one-shot-shelve {"words":"valve"}
409 {"name":"ShelfQuota","refused":27,"value":1}

cal 09:59:59 GET /units
200 {"units":[{"roles":["Viewer"],"unit":"U1"}]}

bea 12:00:00 POST /units/U2/alarms/B-1/timed-shelve {"seconds":600,"words":"seal"}
200 {"done":true}

ann 10:00:00 GET /units
200 {"units":[{"roles":["Operator","Engineer","Steward"],"unit":"U1"}]}

cal 10:00:00 GET /units/U1/alarms/A-1
403 {"name":"NotGranted","refused":3}

cal 10:00:00 GET /units
200 {"units":[]}

ann 10:00:00 GET /units/U1/alarms/A-1
200 {"limit":3600,"limit_revision":0,"out_of_service":false,"shelf":"Unshelved","shelf_left":0,"state":"Normal","suppressed":false,"suppressed_or_shelved":false,"tag":"A-1"}

bea 11:00:00 GET /units
409 {"name":"MomentBehind","refused":5,"value":"2026-03-01T12:00:00Z"}

root 08:00:00 GET /units
200 {"units":[]}

root 12:30:00 GET /units/U2/alarms/B-1
403 {"name":"NotGranted","refused":3}

ann 10:00:00 POST /units/U1/grants {"person":"cal","role":"Operator","end":"2026-03-01T10:00:00Z"}
409 {"name":"EndNotAhead","refused":28}

ann 10:05:00 POST /units/U1/withdrawals {"person":"cal","role":"Viewer"}
200 {"done":true}

ann 10:05:00 POST /units/U1/withdrawals {"person":"cal","role":"Viewer"}
409 {"name":"NotHeld","refused":15}

ann 10:05:00 POST /units/U1/withdrawals {"person":"ann","role":"Steward"}
409 {"name":"LastSteward","refused":16}

bea 12:05:00 GET /units/U2/alarms/B-1
200 {"limit":600,"limit_revision":0,"out_of_service":false,"shelf":"TimedShelved","shelf_left":300,"state":"Normal","suppressed":false,"suppressed_or_shelved":true,"tag":"B-1"}"#;

/// The text stands in one proof alone.
fn forty_exchanges() -> &'static str {
    FORTY_CALLS
}

/// Over each keeper the exchanges are answered as expected.
fn is_answered(rt: &(impl Abort + AllocGlobal), wanted: &Exchanges, title: &str) {
    let lists = lists(rt.alloc()).expect(rt, "lists");
    check_session(rt.alloc(), lists, wanted).expect(rt, title);
    let tables = tables(rt.alloc()).expect(rt, "tables");
    check_session(rt.alloc(), tables, wanted).expect(rt, title);
}

#[test]
fn forty_calls(rt: HostRuntime) {
    let wanted = Exchanges::of(rt.alloc(), &[forty_exchanges()]).expect(&rt, "exchanges");
    assert_eq!(rt; wanted.marks.len(), 40);
    is_answered(&rt, &wanted, "all calls");
    let lists = lists(rt.alloc()).expect(&rt, "lists");
    let tables = tables(rt.alloc()).expect(&rt, "tables");
    check_keepers(rt.alloc(), lists, tables, &wanted).expect(&rt, "all calls");
}
