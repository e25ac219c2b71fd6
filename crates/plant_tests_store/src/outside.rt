//! Tables in which a column holds a value outside its set, or a table is missing: each call that reads the column or
//! the table answers a fault of the store.

use crate::fixtures::{after, at, call, opened, person, tag, unit};
use plant_books::Books;
use plant_model::Request;
use plant_store::Tables;
use plant_types::{Fault, Role};
use sqlite::MemStore;
use std::alloc::Global;
use std::process::Abort;

/// What is asked of the books: about the unit, about the alarm `PT-101`, about a change, or for the person `ann`.
#[derive(Clone, Copy, Debug, PartialEq, Eq)]
enum Asked {
    Taken,
    Rows,
    /// The part for a call that reads one alarm.
    Status,
    /// The part for a call that reads all shelves and alarms.
    Shelves,
    /// The part for a call that reads all grants.
    Withdrawal,
    /// The part for a call that reads one record with its alarm and its change.
    Record,
    /// The part for a call that reads the change 2 with its matrix.
    Change,
    /// The part for a call that reads the matrix change 2, all records with their changes, and the matrix in force.
    Approval,
    Held,
    MineUnits,
}

const ALL: [Asked; 10] = [
    Asked::Taken,
    Asked::Rows,
    Asked::Status,
    Asked::Shelves,
    Asked::Withdrawal,
    Asked::Record,
    Asked::Change,
    Asked::Approval,
    Asked::Held,
    Asked::MineUnits,
];

const OF_THE_UNIT: [Asked; 10] = [
    Asked::Taken,
    Asked::Rows,
    Asked::Status,
    Asked::Shelves,
    Asked::Withdrawal,
    Asked::Record,
    Asked::Change,
    Asked::Approval,
    Asked::Held,
    Asked::MineUnits,
];

/// What reads a unit's matrix and its quota.
const OF_THE_ROW: [Asked; 8] = [
    Asked::Taken,
    Asked::Rows,
    Asked::Status,
    Asked::Shelves,
    Asked::Withdrawal,
    Asked::Record,
    Asked::Change,
    Asked::Approval,
];

/// What reads the grants of `ann`.
const OF_ANN: [Asked; 9] = [
    Asked::Rows,
    Asked::Status,
    Asked::Shelves,
    Asked::Withdrawal,
    Asked::Record,
    Asked::Change,
    Asked::Approval,
    Asked::Held,
    Asked::MineUnits,
];

const OF_ALARMS: [Asked; 4] = [Asked::Rows, Asked::Status, Asked::Shelves, Asked::Record];

const OF_SHELVES: [Asked; 3] = [Asked::Rows, Asked::Status, Asked::Shelves];

const OF_MATRICES: [Asked; 3] = [Asked::Rows, Asked::Change, Asked::Approval];

const OF_RECORDS: [Asked; 3] = [Asked::Rows, Asked::Record, Asked::Approval];

const OF_CHANGES: [Asked; 4] = [Asked::Rows, Asked::Record, Asked::Change, Asked::Approval];

/// Each statement that puts a value outside its column's set into the tables of `opened`, with what reads that column;
/// but for records and changes.
const OUTSIDE: [(&str, &[Asked]); 49] = [
    // a unit's code
    (
        "UPDATE units SET unit = 'u1'; UPDATE grants SET unit = 'u1'",
        &[Asked::Held, Asked::MineUnits],
    ),
    (
        "UPDATE units SET unit = ''; UPDATE grants SET unit = ''",
        &[Asked::Held, Asked::MineUnits],
    ),
    (
        "UPDATE units SET unit = 'UNIT56789'; UPDATE grants SET unit = 'UNIT56789'",
        &[Asked::Held, Asked::MineUnits],
    ),
    // a moment
    ("UPDATE units SET last_s = 3155760000", &OF_THE_UNIT),
    ("UPDATE units SET last_s = -1", &OF_THE_UNIT),
    ("UPDATE shelves SET start_s = 3155760000", &OF_SHELVES),
    // a matrix's number and revision
    ("UPDATE units SET matrix_no = 4294967296", &OF_THE_ROW),
    ("UPDATE units SET matrix_rev = -1", &OF_THE_ROW),
    (
        "UPDATE bands SET matrix_no = 4294967296 WHERE matrix_no = 0",
        &[Asked::Rows],
    ),
    (
        "UPDATE cells SET matrix_no = -1 WHERE matrix_no = 2",
        &[Asked::Rows],
    ),
    // a quota
    ("UPDATE units SET quota = 0", &OF_THE_ROW),
    ("UPDATE units SET quota = 2001", &OF_THE_ROW),
    // a person's name
    (
        "UPDATE grants SET person = 'Ste' WHERE role_no = 6",
        &[Asked::Rows, Asked::Withdrawal],
    ),
    ("UPDATE shelves SET person = ''", &OF_SHELVES),
    (
        "UPDATE shelves SET person = 'a-name-that-has-thirty-three-bytes'",
        &OF_SHELVES,
    ),
    // a role
    ("UPDATE grants SET role_no = 0 WHERE role_no = 2", &OF_ANN),
    ("UPDATE grants SET role_no = 7 WHERE role_no = 2", &OF_ANN),
    ("UPDATE grants SET role_no = -6 WHERE role_no = 2", &OF_ANN),
    // the moment of an end
    (
        "UPDATE grants SET end_s = 3155760000 WHERE role_no = 2",
        &OF_ANN,
    ),
    ("UPDATE grants SET end_s = -1 WHERE role_no = 1", &OF_ANN),
    // a tag
    (
        "UPDATE alarms SET tag = 'pt-101' WHERE tag = 'PT-101'",
        &[Asked::Rows, Asked::Shelves],
    ),
    (
        "UPDATE alarms SET tag = '' WHERE tag = 'LT-2'",
        &[Asked::Rows, Asked::Shelves],
    ),
    (
        "UPDATE shelves SET tag = 'A-TAG-OF-TWENTY-FIVE.BYTES'",
        &[Asked::Rows, Asked::Shelves],
    ),
    // a flag
    ("UPDATE alarms SET latching = 2", &OF_ALARMS),
    ("UPDATE alarms SET suppressed = -1", &OF_ALARMS),
    ("UPDATE shelves SET one_shot = 2", &OF_SHELVES),
    // a length of time
    ("UPDATE alarms SET max_s = 0", &OF_ALARMS),
    ("UPDATE alarms SET max_s = 604801", &OF_ALARMS),
    // a sheet's revision
    ("UPDATE alarms SET max_rev = 4294967296", &OF_ALARMS),
    // an alarm's state
    ("UPDATE alarms SET state_no = 0", &OF_ALARMS),
    ("UPDATE alarms SET state_no = 7", &OF_ALARMS),
    // a moment that may be missing
    ("UPDATE alarms SET active_s = 3155760000", &OF_ALARMS),
    ("UPDATE alarms SET return_s = -1", &OF_ALARMS),
    ("UPDATE alarms SET out_s = 3155760000", &OF_ALARMS),
    // a name and words that may be missing
    ("UPDATE alarms SET out_by = 'Mat'", &OF_ALARMS),
    ("UPDATE alarms SET out_words = 'p\u{fc}mp'", &OF_ALARMS),
    // a shelf's words
    ("UPDATE shelves SET words = ''", &OF_SHELVES),
    // a number of 64 bits
    ("UPDATE shelves SET until_s = -1", &OF_SHELVES),
    ("UPDATE bands SET limit_s = -300", &OF_MATRICES),
    // a band, a severity and a cell
    ("UPDATE bands SET band_no = 256", &OF_MATRICES),
    (
        "UPDATE cells SET severity = 256 WHERE band_no = 2",
        &OF_MATRICES,
    ),
    (
        "UPDATE cells SET band_no = -1 WHERE band_no = 2",
        &OF_MATRICES,
    ),
    ("UPDATE cells SET cell_no = 5", &OF_MATRICES),
    // an event's number, moment, tag and kind
    ("UPDATE events SET seq = 0 WHERE seq = 7", &[Asked::Rows]),
    (
        "UPDATE events SET seq = 1000000000000 WHERE seq = 7",
        &[Asked::Rows],
    ),
    ("UPDATE events SET moment_s = 3155760000", &[Asked::Rows]),
    ("UPDATE events SET tag = 'pt-101'", &[Asked::Rows]),
    ("UPDATE events SET kind_no = 0", &[Asked::Rows]),
    ("UPDATE events SET kind_no = 7", &[Asked::Rows]),
];

/// The same for records and changes.
const OUTSIDE_CHANGES: [(&str, &[Asked]); 21] = [
    // a record's tag, change, revision and cell
    (
        "UPDATE records SET tag = 'pt-101' WHERE tag = 'PT-101'",
        &[Asked::Rows, Asked::Approval],
    ),
    ("UPDATE records SET change_no = -1", &OF_RECORDS),
    ("UPDATE records SET rev = 4294967296", &OF_RECORDS),
    ("UPDATE records SET cell_no = 5", &OF_RECORDS),
    // a change's number, proposer, moment, topic and base
    (
        "UPDATE changes SET number = 4294967296 WHERE number = 1",
        &[Asked::Rows],
    ),
    ("UPDATE changes SET proposer = 'Ann'", &OF_CHANGES),
    ("UPDATE changes SET proposed_s = 3155760000", &OF_CHANGES),
    ("UPDATE changes SET kind_no = 0", &OF_CHANGES),
    ("UPDATE changes SET kind_no = 4", &OF_CHANGES),
    ("UPDATE changes SET base = -1", &OF_CHANGES),
    // what a change proposes, where it is there
    ("UPDATE changes SET tag = 'pt-101'", &OF_CHANGES),
    ("UPDATE changes SET cause = ''", &OF_CHANGES),
    ("UPDATE changes SET consequence = ''", &OF_CHANGES),
    ("UPDATE changes SET remedy = ''", &OF_CHANGES),
    ("UPDATE changes SET severity = 256", &OF_CHANGES),
    ("UPDATE changes SET response_s = 0", &OF_CHANGES),
    ("UPDATE changes SET max_s = 604801", &OF_CHANGES),
    // a change's state, and how it was decided
    ("UPDATE changes SET state_no = 0", &OF_CHANGES),
    ("UPDATE changes SET state_no = 5", &OF_CHANGES),
    ("UPDATE changes SET decider = 'Mat'", &OF_CHANGES),
    ("UPDATE changes SET decided_s = -1", &OF_CHANGES),
];

/// Statements that drop a table, with what reads the table.
const MISSING: [(&str, &[Asked]); 2] = [
    ("DROP TABLE records", &OF_RECORDS),
    ("DROP TABLE changes", &OF_CHANGES),
];

/// The request of a call of this kind, about the unit or the alarm.
fn request(rt: &impl Abort, alloc: Global, asked: Asked) -> Request {
    let unit = unit(rt, alloc, b"U1");
    let tag = tag(rt, alloc, b"PT-101");
    match asked {
        Asked::Status => Request::Status { unit, tag },
        Asked::Record => Request::RecordOf { unit, tag },
        Asked::Change => Request::ChangeOf { unit, number: 2 },
        Asked::Approval => Request::Approve { unit, number: 2 },
        Asked::Withdrawal => Request::Withdraw {
            unit,
            person: person(rt, alloc, b"ann"),
            role: Role::Viewer,
        },
        _ => Request::Shelves { unit },
    }
}

/// The fault of what the books answer to a call of `ann`.
fn fault_of_part(
    rt: &impl Abort,
    alloc: Global,
    books: &mut Tables<MemStore>,
    asked: Asked,
) -> Option<Fault> {
    let call = call(rt, alloc, request(rt, alloc, asked));
    let fault = books.part(&call).err();
    drop(call);
    fault
}

/// The fault of what the books answer, if it is one.
fn fault(
    rt: &impl Abort,
    alloc: Global,
    books: &mut Tables<MemStore>,
    asked: Asked,
) -> Option<Fault> {
    match asked {
        Asked::Taken => books.taken(&unit(rt, alloc, b"U1")).err(),
        Asked::Rows => books.rows(&unit(rt, alloc, b"U1")).err(),
        Asked::Held => books.held(&person(rt, alloc, b"ann"), at(rt, 90)).err(),
        Asked::MineUnits => books
            .mine_units(&person(rt, alloc, b"ann"), at(rt, 90))
            .err(),
        _ => fault_of_part(rt, alloc, books, asked),
    }
}

/// The books of `opened`, after these statements.
fn spoiled(rt: &impl Abort, alloc: Global, statements: &str) -> Tables<MemStore> {
    let conn = after(rt, opened(rt, alloc).close(), statements);
    let books = Tables::open(alloc, conn, person(rt, alloc, b"root"));
    books.ok().expect(rt, "books")
}

/// Which calls do not answer as they should after these statements: each of the readers with a fault of the store, and
/// each other without.
fn amiss(rt: &impl Abort, alloc: Global, statements: &str, readers: &[Asked]) -> Option<Asked> {
    let mut books = spoiled(rt, alloc, statements);
    for asked in ALL.iter() {
        let is_due = match fault(rt, alloc, &mut books, *asked) {
            Some(Fault::Store) => readers.contains(asked),
            Some(Fault::Memory) => false,
            None => !readers.contains(asked),
        };
        if !is_due {
            return Some(*asked);
        }
    }
    None
}

/// After each of these statements, each call answers as it should.
fn is_answered(rt: &impl Abort, alloc: Global, spoilt: &[(&str, &[Asked])]) {
    for (statements, readers) in spoilt {
        assert_eq!(rt; amiss(rt, alloc, statements, readers), None, "{statements}");
    }
}

#[test]
fn answers_store_where_a_value_is_outside_its_set(rt: HostRuntime) {
    is_answered(&rt, rt.alloc(), &OUTSIDE);
}

#[test]
fn answers_store_where_a_change_is_outside_its_set(rt: HostRuntime) {
    is_answered(&rt, rt.alloc(), &OUTSIDE_CHANGES);
}

#[test]
fn answers_store_where_a_table_is_missing(rt: HostRuntime) {
    is_answered(&rt, rt.alloc(), &MISSING);
}
