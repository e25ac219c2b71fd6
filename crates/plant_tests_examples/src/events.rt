//! The worked examples of imports and floods as data, in the notation of `exchanges`.

use crate::examples::{BASE, Example, QUOTA};

const LATER_RETURN: &str =
    r#"ann 10:00:00 POST /units/U1/alarms/PT-101/one-shot-shelve {"words":"x"}
200 {"done":true}

ann 10:00:02 POST /units/U1/imports
> seq,moment,tag,event
> 1,2026-03-01T09:59:58Z,PT-101,ACT
> 2,2026-03-01T09:59:59Z,PT-101,RTN
200 {"new":2,"repeated":0}

ann 10:00:02 GET /units/U1/alarms/PT-101
200 {"limit":3600,"limit_revision":0,"out_of_service":false,"shelf":"OneShotShelved","shelf_left":3598,"state":"ReturnedUnack","suppressed":false,"suppressed_or_shelved":true,"tag":"PT-101"}

ann 10:00:02 POST /units/U1/imports
> seq,moment,tag,event
> 3,2026-03-01T10:00:00Z,PT-101,ACT
> 4,2026-03-01T10:00:00Z,PT-101,RTN
200 {"new":2,"repeated":0}

ann 10:00:02 GET /units/U1/alarms/PT-101
200 {"limit":3600,"limit_revision":0,"out_of_service":false,"shelf":"OneShotShelved","shelf_left":3598,"state":"ReturnedUnack","suppressed":false,"suppressed_or_shelved":true,"tag":"PT-101"}

ann 10:00:02 POST /units/U1/imports
> seq,moment,tag,event
> 5,2026-03-01T10:00:01Z,PT-101,ACT
> 6,2026-03-01T10:00:01Z,PT-101,RTN
200 {"new":2,"repeated":0}

ann 10:00:02 GET /units/U1/alarms/PT-101
200 {"limit":3600,"limit_revision":0,"out_of_service":false,"shelf":"Unshelved","shelf_left":0,"state":"ReturnedUnack","suppressed":false,"suppressed_or_shelved":false,"tag":"PT-101"}"#;

const LATCHED: &str = r#"ann 09:30:00 POST /units/U1/imports
> seq,moment,tag,event
> 1,2026-03-01T09:00:00Z,LT-2,ACT
200 {"new":1,"repeated":0}

ann 09:30:00 GET /units/U1/alarms/LT-2
200 {"limit":86400,"limit_revision":0,"out_of_service":false,"shelf":"Unshelved","shelf_left":0,"state":"Unacknowledged","suppressed":false,"suppressed_or_shelved":false,"tag":"LT-2"}

ann 09:30:00 POST /units/U1/imports
> seq,moment,tag,event
> 2,2026-03-01T09:01:00Z,LT-2,RTN
200 {"new":1,"repeated":0}

ann 09:30:00 GET /units/U1/alarms/LT-2
200 {"limit":86400,"limit_revision":0,"out_of_service":false,"shelf":"Unshelved","shelf_left":0,"state":"LatchedUnack","suppressed":false,"suppressed_or_shelved":false,"tag":"LT-2"}

ann 09:30:00 POST /units/U1/imports
> seq,moment,tag,event
> 3,2026-03-01T09:02:00Z,LT-2,RESET
200 {"new":1,"repeated":0}

ann 09:30:00 GET /units/U1/alarms/LT-2
200 {"limit":86400,"limit_revision":0,"out_of_service":false,"shelf":"Unshelved","shelf_left":0,"state":"ReturnedUnack","suppressed":false,"suppressed_or_shelved":false,"tag":"LT-2"}

ann 09:30:00 POST /units/U1/imports
> seq,moment,tag,event
> 4,2026-03-01T09:03:00Z,LT-2,RTN
200 {"new":1,"repeated":0}

ann 09:30:00 GET /units/U1/alarms/LT-2
200 {"limit":86400,"limit_revision":0,"out_of_service":false,"shelf":"Unshelved","shelf_left":0,"state":"ReturnedUnack","suppressed":false,"suppressed_or_shelved":false,"tag":"LT-2"}

ann 09:30:00 POST /units/U1/imports
> seq,moment,tag,event
> 5,2026-03-01T09:04:00Z,LT-2,ACK
200 {"new":1,"repeated":0}

ann 09:30:00 GET /units/U1/alarms/LT-2
200 {"limit":86400,"limit_revision":0,"out_of_service":false,"shelf":"Unshelved","shelf_left":0,"state":"Normal","suppressed":false,"suppressed_or_shelved":false,"tag":"LT-2"}"#;

const LATCHED_ACKNOWLEDGED: &str = r#"ann 09:30:00 POST /units/U1/imports
> seq,moment,tag,event
> 1,2026-03-01T09:00:00Z,LT-2,ACT
200 {"new":1,"repeated":0}

ann 09:30:00 POST /units/U1/imports
> seq,moment,tag,event
> 2,2026-03-01T09:01:00Z,LT-2,RTN
200 {"new":1,"repeated":0}

ann 09:30:00 POST /units/U1/imports
> seq,moment,tag,event
> 3,2026-03-01T09:02:00Z,LT-2,ACK
200 {"new":1,"repeated":0}

ann 09:30:00 GET /units/U1/alarms/LT-2
200 {"limit":86400,"limit_revision":0,"out_of_service":false,"shelf":"Unshelved","shelf_left":0,"state":"LatchedAck","suppressed":false,"suppressed_or_shelved":false,"tag":"LT-2"}

ann 09:30:00 POST /units/U1/imports
> seq,moment,tag,event
> 4,2026-03-01T09:03:00Z,LT-2,RESET
200 {"new":1,"repeated":0}

ann 09:30:00 GET /units/U1/alarms/LT-2
200 {"limit":86400,"limit_revision":0,"out_of_service":false,"shelf":"Unshelved","shelf_left":0,"state":"Normal","suppressed":false,"suppressed_or_shelved":false,"tag":"LT-2"}"#;

const ANNUNCIATED_AGAIN: &str = r#"ann 09:30:00 POST /units/U1/imports
> seq,moment,tag,event
> 1,2026-03-01T09:00:00Z,PT-101,ACT
> 2,2026-03-01T09:01:00Z,PT-101,ACK
200 {"new":2,"repeated":0}

ann 09:30:00 GET /units/U1/alarms/PT-101
200 {"limit":3600,"limit_revision":0,"out_of_service":false,"shelf":"Unshelved","shelf_left":0,"state":"Acknowledged","suppressed":false,"suppressed_or_shelved":false,"tag":"PT-101"}

ann 09:30:00 POST /units/U1/imports
> seq,moment,tag,event
> 3,2026-03-01T09:02:00Z,PT-101,ACT
200 {"new":1,"repeated":0}

ann 09:30:00 GET /units/U1/alarms/PT-101
200 {"limit":3600,"limit_revision":0,"out_of_service":false,"shelf":"Unshelved","shelf_left":0,"state":"Unacknowledged","suppressed":false,"suppressed_or_shelved":false,"tag":"PT-101"}

ann 09:30:00 GET /units/U1/standing
200 STANDING U1 AT 2026-03-01T09:30:00Z COUNT 1
PT-101                   Unacknowledged -  2026-03-01T09:00:00Z ---"#;

/// Three events of an alarm, in one file.
pub const THREE_ROWS: &str = r#"ann 09:30:00 POST /units/U1/imports
> seq,moment,tag,event
> 1,2026-03-01T09:00:00Z,PT-101,ACT
> 2,2026-03-01T09:05:00Z,PT-101,RTN
> 3,2026-03-01T09:06:00Z,PT-101,ACK
200 {"new":3,"repeated":0}"#;

pub const IMPORTED_TWICE: &str = r#"ann 09:30:00 GET /units/U1/alarms/PT-101
200 {"limit":3600,"limit_revision":0,"out_of_service":false,"shelf":"Unshelved","shelf_left":0,"state":"Normal","suppressed":false,"suppressed_or_shelved":false,"tag":"PT-101"}

ann 09:30:00 POST /units/U1/imports
> seq,moment,tag,event
> 1,2026-03-01T09:00:00Z,PT-101,ACT
> 2,2026-03-01T09:05:00Z,PT-101,RTN
> 3,2026-03-01T09:06:00Z,PT-101,ACK
200 {"new":0,"repeated":3}

ann 09:30:00 GET /units/U1/alarms/PT-101
200 {"limit":3600,"limit_revision":0,"out_of_service":false,"shelf":"Unshelved","shelf_left":0,"state":"Normal","suppressed":false,"suppressed_or_shelved":false,"tag":"PT-101"}

ann 09:30:00 POST /units/U1/imports
> seq,moment,tag,event
> 1,2026-03-01T09:00:00Z,PT-101,ACT
> 2,2026-03-01T09:04:00Z,PT-101,RTN
> 3,2026-03-01T09:06:00Z,PT-101,ACK
409 {"name":"BadFile","refused":26,"value":{"cause":"SequenceClash","line":3}}

ann 09:30:00 POST /units/U1/imports
> seq,moment,tag,event
> 1,2026-03-01T09:00:00Z,PT-101,ACT
> 4,2026-03-01T09:07:00Z,PT-101,ACT
> 2,2026-03-01T09:04:00Z,PT-101,RTN
409 {"name":"BadFile","refused":26,"value":{"cause":"SequenceClash","line":4}}

ann 09:30:00 POST /units/U1/imports
> seq,moment,tag,event
> 1,2026-03-01T09:00:00Z,PT-101,ACT
> 2,2026-03-01T09:05:00Z,PT-101,RTN
> 3,2026-03-01T09:06:00Z,PT-101,ACK
200 {"new":0,"repeated":3}

ann 09:30:00 GET /units/U1/alarms/PT-101
200 {"limit":3600,"limit_revision":0,"out_of_service":false,"shelf":"Unshelved","shelf_left":0,"state":"Normal","suppressed":false,"suppressed_or_shelved":false,"tag":"PT-101"}"#;

const STRANGE_FILES: &str = r#"ann 09:30:00 POST /units/U1/imports
409 {"name":"BadFile","refused":26,"value":{"cause":"Header","line":1}}

ann 09:30:00 POST /units/U1/imports
> seq,moment,tag,event
200 {"new":0,"repeated":0}

ann 09:30:00 POST /units/U1/imports
> seq,moment,tag,event
> 1,2026-03-01T09:00:00Z,NO-1,ACT
> 2,2026-03-01T09:00:00Z,PT-101,act
409 {"name":"BadFile","refused":26,"value":{"cause":"BadEvent","line":3}}

ann 09:30:00 POST /units/U1/imports
> seq,moment,tag,event
> 1,2026-03-01T09:00:00Z,NO-1,ACT
409 {"name":"BadFile","refused":26,"value":{"cause":"TagUnknown","line":2}}

ann 09:30:00 POST /units/U1/imports
> 1,2026-03-01T09:00:00Z,PT-101,ACT
> 2,2026-03-01T09:05:00Z,PT-101,RTN
> 3,2026-03-01T09:06:00Z,PT-101,ACK
409 {"name":"BadFile","refused":26,"value":{"cause":"Header","line":1}}

ann 09:30:00 POST /units/U1/imports
> seq,moment,tag,event,words
409 {"name":"BadFile","refused":26,"value":{"cause":"Header","line":1}}"#;

const FAULTY_LINES: &str = r#"ann 09:30:00 POST /units/U1/imports
> seq,moment,tag,event
> 1,2026-03-01T09:00:00Z,PT-101,ACT
> 2,2026-03-01T09:05:00Z,PT-101
409 {"name":"BadFile","refused":26,"value":{"cause":"FieldCount","line":3}}

ann 09:30:00 POST /units/U1/imports
> seq,moment,tag,event
> 1,2026-03-01T09:00:00Z,PT-101,ACT
> 2,2026-03-01T09:05:00Z,PT-101,RTN,
409 {"name":"BadFile","refused":26,"value":{"cause":"FieldCount","line":3}}

ann 09:30:00 POST /units/U1/imports
> seq,moment,tag,event
> 0,2026-03-01T09:00:00Z,PT-101,ACT
409 {"name":"BadFile","refused":26,"value":{"cause":"BadNumber","line":2}}

ann 09:30:00 POST /units/U1/imports
> seq,moment,tag,event
> 01,2026-03-01T09:00:00Z,PT-101,ACT
409 {"name":"BadFile","refused":26,"value":{"cause":"BadNumber","line":2}}

ann 09:30:00 POST /units/U1/imports
> seq,moment,tag,event
> 1000000000000,2026-03-01T09:00:00Z,PT-101,ACT
409 {"name":"BadFile","refused":26,"value":{"cause":"BadNumber","line":2}}

ann 09:30:00 POST /units/U1/imports
> seq,moment,tag,event
> 1,2026-03-01T09:00:00Z,PT-101,ACT
> 2,2026-03-01T09:05:00Z,PT-101,RTN
> 3,2026-03-01T09:06,PT-101,ACK
409 {"name":"BadFile","refused":26,"value":{"cause":"BadMoment","line":4}}

ann 09:30:00 POST /units/U1/imports
> seq,moment,tag,event
> 1,2026-02-29T09:00:00Z,pt-101,act
409 {"name":"BadFile","refused":26,"value":{"cause":"BadMoment","line":2}}

ann 09:30:00 POST /units/U1/imports
> seq,moment,tag,event
> 1,2026-03-01T09:00:00Z,pt-101,act
409 {"name":"BadFile","refused":26,"value":{"cause":"BadTag","line":2}}

ann 09:30:00 POST /units/U1/imports
> seq,moment,tag,event
> 1,2026-03-01T09:00:00Z,PT-101,RETURN
409 {"name":"BadFile","refused":26,"value":{"cause":"BadEvent","line":2}}

ann 09:30:00 POST /units/U1/imports
> seq,moment,tag,event
> 1,2026-03-01T09:00:00Z,PT-101,ACT
> 1,2026-03-01T09:00:01Z,PT-101,ACT
> x
409 {"name":"BadFile","refused":26,"value":{"cause":"FieldCount","line":4}}

ann 09:30:00 POST /units/U1/imports
> seq,moment,tag,event
> 1,2026-03-01T09:00:00Z,PT-101,ACT
> 1,2026-03-01T09:31:00Z,NO-1,RTN
409 {"name":"BadFile","refused":26,"value":{"cause":"TagUnknown","line":3}}

ann 09:30:00 POST /units/U1/imports
> seq,moment,tag,event
> 1,2026-03-01T09:00:00Z,PT-101,ACT
> 1,2026-03-01T09:31:00Z,PT-101,RTN
409 {"name":"BadFile","refused":26,"value":{"cause":"MomentAhead","line":3}}

ann 09:30:00 POST /units/U1/imports
> seq,moment,tag,event
> 1,2026-03-01T09:00:00Z,PT-101,ACT
> 1,2026-03-01T09:00:01Z,PT-101,ACT
409 {"name":"BadFile","refused":26,"value":{"cause":"SequenceClash","line":3}}

ann 09:30:00 POST /units/U1/imports
> seq,moment,tag,event
> 1,2026-03-01T09:00:00Z,PT-101,ACT
> 1,2026-03-01T09:00:00Z,PT-101,RTN
409 {"name":"BadFile","refused":26,"value":{"cause":"SequenceClash","line":3}}

ann 09:30:00 POST /units/U1/imports
> seq,moment,tag,event
> 1,2026-03-01T09:00:00Z,PT-101,ACT
> 1,2026-03-01T09:00:00Z,LT-2,ACT
409 {"name":"BadFile","refused":26,"value":{"cause":"SequenceClash","line":3}}

ann 09:30:00 POST /units/U1/imports
> seq,moment,tag,event
> 2,2026-03-01T09:05:00Z,PT-101,RTN
> 1,2026-03-01T09:05:01Z,LT-2,ACT
409 {"name":"BadFile","refused":26,"value":{"cause":"MomentOutOfOrder","line":3}}

ann 09:30:00 POST /units/U1/imports
> seq,moment,tag,event
> 2,2026-03-01T09:05:00Z,PT-101,RTN
> 3,2026-03-01T09:04:59Z,LT-2,ACT
409 {"name":"BadFile","refused":26,"value":{"cause":"MomentOutOfOrder","line":3}}

ann 09:30:00 POST /units/U1/imports
> seq,moment,tag,event
> 999999999999,2026-03-01T09:30:00Z,PT-101,ACT
200 {"new":1,"repeated":0}"#;

const WHO_IMPORTS: &str = r#"bob 07:00:00 POST /units/U1/imports
403 {"name":"NotGranted","refused":3}

vic 07:00:00 POST /units/U1/imports
403 {"name":"RoleLacking","refused":4,"value":"Operator"}

ann 07:00:00 POST /units/U1/imports
409 {"name":"MomentBehind","refused":5,"value":"2026-03-01T08:00:00Z"}

ann 08:00:00 POST /units/U1/imports
409 {"name":"BadFile","refused":26,"value":{"cause":"Header","line":1}}

ann 09:30:00 POST /units/U1/imports
> seq,moment,tag,event
200 {"new":0,"repeated":0}

ann 09:29:59 GET /units/U1/alarms
409 {"name":"MomentBehind","refused":5,"value":"2026-03-01T09:30:00Z"}"#;

const GAPS: &str = r#"ann 09:30:00 POST /units/U1/imports
> seq,moment,tag,event
> 5,2026-03-01T09:10:00Z,PT-101,ACT
> 6,2026-03-01T09:20:00Z,PT-101,ACK
200 {"new":2,"repeated":0}

ann 09:30:00 POST /units/U1/imports
> seq,moment,tag,event
> 3,2026-03-01T09:00:00Z,PT-101,RTN
200 {"new":1,"repeated":0}

ann 09:30:00 GET /units/U1/alarms/PT-101
200 {"limit":3600,"limit_revision":0,"out_of_service":false,"shelf":"Unshelved","shelf_left":0,"state":"Acknowledged","suppressed":false,"suppressed_or_shelved":false,"tag":"PT-101"}

ann 09:30:00 POST /units/U1/imports
> seq,moment,tag,event
> 4,2026-03-01T09:15:00Z,PT-101,ACK
409 {"name":"BadFile","refused":26,"value":{"cause":"MomentOutOfOrder","line":2}}

ann 09:30:00 POST /units/U1/imports
> seq,moment,tag,event
> 7,2026-03-01T09:31:00Z,PT-101,ACT
409 {"name":"BadFile","refused":26,"value":{"cause":"MomentAhead","line":2}}

ann 09:30:00 GET /units/U1/alarms/PT-101
200 {"limit":3600,"limit_revision":0,"out_of_service":false,"shelf":"Unshelved","shelf_left":0,"state":"Acknowledged","suppressed":false,"suppressed_or_shelved":false,"tag":"PT-101"}"#;

const REVIVED: &str = r#"ann 10:00:00 POST /units/U1/alarms/PT-101/one-shot-shelve {"words":"x"}
200 {"done":true}

ann 10:01:00 POST /units/U1/imports
> seq,moment,tag,event
> 1,2026-03-01T09:50:00Z,PT-101,ACT
> 3,2026-03-01T10:00:05Z,PT-101,RTN
200 {"new":2,"repeated":0}

ann 10:01:00 GET /units/U1/alarms/PT-101
200 {"limit":3600,"limit_revision":0,"out_of_service":false,"shelf":"Unshelved","shelf_left":0,"state":"ReturnedUnack","suppressed":false,"suppressed_or_shelved":false,"tag":"PT-101"}

ann 10:02:00 POST /units/U1/imports
> seq,moment,tag,event
> 2,2026-03-01T09:55:00Z,PT-101,RTN
200 {"new":1,"repeated":0}

ann 10:02:00 GET /units/U1/alarms/PT-101
200 {"limit":3600,"limit_revision":0,"out_of_service":false,"shelf":"OneShotShelved","shelf_left":3480,"state":"ReturnedUnack","suppressed":false,"suppressed_or_shelved":true,"tag":"PT-101"}"#;

const BY_DESIGN: &str = r#"ann 09:30:00 POST /units/U1/imports
> seq,moment,tag,event
> 1,2026-03-01T09:00:00Z,PT-101,SUP
200 {"new":1,"repeated":0}

ann 09:30:00 GET /units/U1/alarms/PT-101
200 {"limit":3600,"limit_revision":0,"out_of_service":false,"shelf":"Unshelved","shelf_left":0,"state":"Normal","suppressed":true,"suppressed_or_shelved":true,"tag":"PT-101"}

ann 09:30:00 GET /units/U1/alarms
200 ALARMS U1 AT 2026-03-01T09:30:00Z COUNT 2
LT-2                     Normal         -  ---  86400
PT-101                   Normal         -  -D-   3600

ann 09:30:00 POST /units/U1/imports
> seq,moment,tag,event
> 2,2026-03-01T09:01:00Z,PT-101,UNSUP
200 {"new":1,"repeated":0}

ann 09:30:00 GET /units/U1/alarms/PT-101
200 {"limit":3600,"limit_revision":0,"out_of_service":false,"shelf":"Unshelved","shelf_left":0,"state":"Normal","suppressed":false,"suppressed_or_shelved":false,"tag":"PT-101"}"#;

const STANDING: &str = r#"ann 09:30:00 POST /units/U1/imports
> seq,moment,tag,event
> 1,2026-03-01T09:00:00Z,PT-101,ACT
200 {"new":1,"repeated":0}

ann 10:00:00 POST /units/U1/alarms/PT-101/timed-shelve {"seconds":60,"words":"x"}
200 {"done":true}

ann 10:00:00 GET /units/U1/standing
200 STANDING U1 AT 2026-03-01T10:00:00Z COUNT 1
PT-101                   Unacknowledged -  2026-03-01T09:00:00Z S--

ann 10:00:00 GET /units/U1/alarms
200 ALARMS U1 AT 2026-03-01T10:00:00Z COUNT 2
LT-2                     Normal         -  ---  86400
PT-101                   Unacknowledged -  S--   3600"#;

const ROW_TWICE: &str = r#"ann 09:30:00 POST /units/U1/imports
> seq,moment,tag,event
> 1,2026-03-01T09:00:00Z,PT-101,ACT
> 1,2026-03-01T09:00:00Z,PT-101,ACT
200 {"new":1,"repeated":1}

ann 09:30:00 GET /units/U1/alarms/PT-101
200 {"limit":3600,"limit_revision":0,"out_of_service":false,"shelf":"Unshelved","shelf_left":0,"state":"Unacknowledged","suppressed":false,"suppressed_or_shelved":false,"tag":"PT-101"}"#;

const ABOVE_THE_QUOTA: &str =
    r#"ann 10:00:00 POST /units/U3/alarms/A-2/one-shot-shelve {"words":"x"}
200 {"done":true}

ann 10:01:00 POST /units/U3/imports
> seq,moment,tag,event
> 1,2026-03-01T09:50:00Z,A-2,ACT
> 3,2026-03-01T10:00:05Z,A-2,RTN
200 {"new":2,"repeated":0}

ann 10:01:30 POST /units/U3/alarms/A-1/timed-shelve {"seconds":3600,"words":"x"}
200 {"done":true}

ann 10:01:30 POST /units/U3/alarms/A-3/timed-shelve {"seconds":3600,"words":"x"}
200 {"done":true}

ann 10:02:00 POST /units/U3/imports
> seq,moment,tag,event
> 2,2026-03-01T09:55:00Z,A-2,RTN
200 {"new":1,"repeated":0}

ann 10:02:00 GET /units/U3/shelves
200 SHELVES U3 AT 2026-03-01T10:02:00Z COUNT 3
A-1                      timed    2026-03-01T10:01:30Z   3570 ann                              x
A-2                      one-shot 2026-03-01T10:00:00Z   3480 ann                              x
A-3                      timed    2026-03-01T10:01:30Z   3570 ann                              x

ann 10:02:00 POST /units/U3/alarms/A-1/unshelve
200 {"done":true}

ann 10:02:00 POST /units/U3/alarms/A-1/timed-shelve {"seconds":60,"words":"x"}
409 {"name":"ShelfQuota","refused":27,"value":2}

ann 10:02:00 POST /units/U3/alarms/A-2/timed-shelve {"seconds":60,"words":"x"}
200 {"done":true}"#;

/// The requests for the floods of 42 activations from ten on (11, 5, 4, 10 and 12 in each ten minutes), and their
/// answers.
pub const FLOODS: &str =
    r#"vic 11:00:00 GET /units/U1/floods/2026-03-01T10:00:00Z/2026-03-01T10:50:00Z
200 FLOODS U1 FROM 2026-03-01T10:00:00Z TO 2026-03-01T10:50:00Z COUNT 2
2026-03-01T10:00:00Z 2026-03-01T10:20:00Z     16     11
2026-03-01T10:40:00Z 2026-03-01T10:50:00Z     12     12

vic 11:00:00 GET /units/U1/floods/2026-03-01T10:00:00Z/2026-03-01T10:00:00Z
409 {"name":"RangeNotAligned","refused":25}

vic 11:00:00 GET /units/U1/floods/2026-03-01T10:00:01Z/2026-03-01T10:10:00Z
409 {"name":"RangeNotAligned","refused":25}

vic 11:00:00 GET /units/U1/floods/2026-03-01T10:10:00Z/2026-03-01T10:00:00Z
409 {"name":"RangeNotAligned","refused":25}

vic 11:00:00 GET /units/U1/floods/2026-03-01T10:10:00Z/2026-03-01T10:50:00Z
200 FLOODS U1 FROM 2026-03-01T10:10:00Z TO 2026-03-01T10:50:00Z COUNT 1
2026-03-01T10:40:00Z 2026-03-01T10:50:00Z     12     12

vic 11:00:00 GET /units/U1/floods/2026-03-01T10:40:00Z/2026-03-08T10:40:00Z
200 FLOODS U1 FROM 2026-03-01T10:40:00Z TO 2026-03-08T10:40:00Z COUNT 1
2026-03-01T10:40:00Z 2026-03-01T10:50:00Z     12     12

vic 11:00:00 GET /units/U1/floods/2026-03-01T10:40:00Z/2026-03-08T10:50:00Z
409 {"name":"RangeNotAligned","refused":25}

vic 11:00:00 GET /units/U1/floods/2026-03-01T10:00:00Z/10:50:00
400 {"cause":"BadPath","malformed":9}

bob 11:00:00 GET /units/U1/floods/2026-03-01T10:00:01Z/2026-03-01T10:50:00Z
403 {"name":"NotGranted","refused":3}

vic 10:59:59 GET /units/U1/floods/2026-03-01T10:00:01Z/2026-03-01T10:50:00Z
409 {"name":"MomentBehind","refused":5,"value":"2026-03-01T11:00:00Z"}"#;

/// Three files, each with two of three rows.
pub const OVERLAPPING: [&str; 3] = [
    r#"> seq,moment,tag,event
> 1,2026-03-01T09:00:00Z,PT-101,ACT
> 2,2026-03-01T09:05:00Z,PT-101,RTN"#,
    r#"> seq,moment,tag,event
> 2,2026-03-01T09:05:00Z,PT-101,RTN
> 3,2026-03-01T09:06:00Z,PT-101,ACK"#,
    r#"> seq,moment,tag,event
> 1,2026-03-01T09:00:00Z,PT-101,ACT
> 3,2026-03-01T09:06:00Z,PT-101,ACK"#,
];

/// The answers to the first file, to the second, and to the third.
pub const COUNTED: [&str; 3] = [
    r#"200 {"new":2,"repeated":0}"#,
    r#"200 {"new":1,"repeated":1}"#,
    r#"200 {"new":0,"repeated":2}"#,
];

/// The alarm after all three.
pub const OVERLAPPED: &str = r#"ann 09:30:00 GET /units/U1/alarms/PT-101
200 {"limit":3600,"limit_revision":0,"out_of_service":false,"shelf":"Unshelved","shelf_left":0,"state":"Normal","suppressed":false,"suppressed_or_shelved":false,"tag":"PT-101"}"#;

const IMPORTED: [Example; 14] = [
    ("a return later than the shelving", &[BASE], LATER_RETURN),
    ("a latching alarm that is reset first", &[BASE], LATCHED),
    (
        "a latching alarm that is acknowledged first",
        &[BASE],
        LATCHED_ACKNOWLEDGED,
    ),
    (
        "an alarm that annunciates again",
        &[BASE],
        ANNUNCIATED_AGAIN,
    ),
    ("a file imported twice", &[BASE, THREE_ROWS], IMPORTED_TWICE),
    (
        "files without rows, and files without a header",
        &[BASE],
        STRANGE_FILES,
    ),
    ("the first fault of a file", &[BASE], FAULTY_LINES),
    ("who may import", &[BASE], WHO_IMPORTS),
    ("gaps filled in any order", &[BASE], GAPS),
    ("a filled gap revives a one-shot shelf", &[BASE], REVIVED),
    ("suppressed by design", &[BASE], BY_DESIGN),
    ("an alarm that is active", &[BASE], STANDING),
    ("a row twice in a file", &[BASE], ROW_TWICE),
    (
        "a filled gap brings a shelf back, above the quota",
        &[QUOTA],
        ABOVE_THE_QUOTA,
    ),
];

/// The examples of imports.
pub fn examples_of_imports() -> &'static [Example] {
    &IMPORTED
}
