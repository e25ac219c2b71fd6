//! Comparing two keepers finds each difference between their rows, and no other.

use plant_tests_examples::{BASE, Exchanges, SHELVED};
use plant_tests_sites::{are_left_alike, lists, tables};
use std::process::Abort;

/// The exchanges of these texts.
fn of(rt: &(impl Abort + AllocGlobal), texts: &[&str]) -> Exchanges {
    Exchanges::of(rt.alloc(), texts).expect(rt, "exchanges")
}

/// Whether lists after these exchanges hold the same rows as tables after those.
fn is_left_alike(rt: &(impl Abort + AllocGlobal), these: &Exchanges, those: &Exchanges) -> bool {
    let lists = lists(rt.alloc()).expect(rt, "lists");
    let tables = tables(rt.alloc()).expect(rt, "tables");
    are_left_alike(rt.alloc(), lists, tables, these, those).expect(rt, "rows")
}

#[test]
fn tells_rows_that_differ(rt: HostRuntime) {
    let base = of(&rt, &[BASE]);
    for (parts, is_alike) in [
        ([BASE].as_slice(), true),
        ([BASE, SHELVED].as_slice(), false),
        ([].as_slice(), false),
    ] {
        assert_eq!(rt; is_left_alike(&rt, &base, &of(&rt, parts)), is_alike);
    }
}

/// Calls of one moment, two by two, after which the rows of one table differ: grants, alarms, shelves, events, changes.
const DIFFERENT: [(&str, &str); 5] = [
    (
        r#"ste 10:00:00 POST /units/U1/grants {"person":"pia","role":"Viewer"}
200 {"done":true}"#,
        r#"ste 10:00:00 POST /units/U1/grants {"person":"pia","role":"Operator"}
200 {"done":true}"#,
    ),
    (
        r#"eve 10:00:00 POST /units/U1/alarms {"tag":"A-1","latching":false,"max":60}
200 {"done":true}"#,
        r#"eve 10:00:00 POST /units/U1/alarms {"tag":"A-1","latching":false,"max":61}
200 {"done":true}"#,
    ),
    (
        r#"ann 10:00:00 POST /units/U1/alarms/PT-101/timed-shelve {"seconds":60,"words":"x"}
200 {"done":true}"#,
        r#"ann 10:00:00 POST /units/U1/alarms/PT-101/timed-shelve {"seconds":60,"words":"y"}
200 {"done":true}"#,
    ),
    (
        r#"ann 10:00:00 POST /units/U1/imports
> seq,moment,tag,event
> 1,2026-03-01T09:00:00Z,PT-101,ACT
> 2,2026-03-01T09:30:00Z,PT-101,RTN
> 3,2026-03-01T09:30:00Z,PT-101,ACT
200 {"new":3,"repeated":0}"#,
        r#"ann 10:00:00 POST /units/U1/imports
> seq,moment,tag,event
> 1,2026-03-01T09:00:01Z,PT-101,ACT
> 2,2026-03-01T09:30:00Z,PT-101,RTN
> 3,2026-03-01T09:30:00Z,PT-101,ACT
200 {"new":3,"repeated":0}"#,
    ),
    (
        r#"eve 10:00:00 POST /units/U1/changes {"kind":"limit","base":0,"tag":"PT-101","max":60}
200 {"number":1}"#,
        r#"eve 10:00:00 POST /units/U1/changes {"kind":"limit","base":0,"tag":"PT-101","max":61}
200 {"number":1}"#,
    ),
];

#[test]
fn finds_the_table_that_differs(rt: HostRuntime) {
    for (ours, theirs) in DIFFERENT.iter() {
        let ours = of(&rt, &[BASE, ours]);
        let theirs = of(&rt, &[BASE, theirs]);
        assert!(rt; is_left_alike(&rt, &ours, &ours));
        assert!(rt; !is_left_alike(&rt, &ours, &theirs));
    }
}
