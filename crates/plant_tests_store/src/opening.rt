//! Which databases are opened.

use crate::fixtures::{counts, made_by, opened, person, rows};
use plant_books::Books;
use plant_store::{StoreFault, Tables};
use plant_types::Fault;
use std::alloc::Global;
use std::process::Abort;

/// The books are those of `opened`, and root's.
fn are_opened<B: Books + Drop>(rt: &impl Abort, alloc: Global, mut books: B) {
    assert!(rt; *books.administrator() == person(rt, alloc, b"root"));
    assert!(rt; counts(&rows(rt, alloc, &mut books)) == [1, 3, 2, 1, 2, 2, 3, 2, 4]);
}

#[test]
fn opens_its_own_store_alone(rt: HostRuntime) {
    let alloc = rt.alloc();
    let conn = opened(&rt, alloc).close();
    let Err(back) = Tables::open(alloc, conn, person(&rt, alloc, b"ste")) else {
        rt.panic("another administrator's")
    };
    assert!(rt; matches!(back.fault, StoreFault::NotThisStore));
    let Ok(books) = Tables::open(alloc, back.conn, person(&rt, alloc, b"root")) else {
        rt.panic("the same administrator's")
    };
    are_opened(&rt, alloc, books);
}

/// Statements that make a database, and whether it is then opened for `root`.
const OFFICES: [(&str, bool); 9] = [
    ("", false),
    (
        "CREATE TABLE other (id INTEGER, schema_no INTEGER, admin TEXT) STRICT; INSERT INTO other (id, schema_no, admin) VALUES (1, 2, 'root')",
        false,
    ),
    (
        "CREATE TABLE office (id INTEGER, schema_no INTEGER) STRICT; INSERT INTO office (id, schema_no) VALUES (1, 2)",
        false,
    ),
    (
        "CREATE TABLE other (id INTEGER) STRICT; CREATE TABLE office (admin TEXT, schema_no INTEGER, id INTEGER) STRICT; CREATE VIEW seen AS SELECT id FROM other; INSERT INTO office (id, schema_no, admin) VALUES (1, 2, 'root')",
        true,
    ),
    (
        "CREATE TABLE other (id INTEGER) STRICT; CREATE TABLE office (admin TEXT, schema_no INTEGER, id INTEGER) STRICT; INSERT INTO office (id, schema_no, admin) VALUES (1, 1, 'root')",
        false,
    ),
    (
        "CREATE TABLE office (id INTEGER, schema_no INTEGER, admin TEXT) STRICT; INSERT INTO office (id, schema_no, admin) VALUES (1, 2, 'ste')",
        false,
    ),
    (
        "CREATE TABLE office (id INTEGER, schema_no INTEGER, admin TEXT) STRICT; INSERT INTO office (id, schema_no, admin) VALUES (2, 2, 'root')",
        false,
    ),
    (
        "CREATE TABLE office (id INTEGER, schema_no INTEGER, admin TEXT) STRICT",
        false,
    ),
    (
        "CREATE TABLE office (id INTEGER, schema_no INTEGER, admin TEXT) STRICT; INSERT INTO office (id, schema_no, admin) VALUES (1, 2, 'root'), (1, 2, 'root')",
        false,
    ),
];

/// Whether the database that these statements make is opened. If it is not, it must be refused as not this store.
fn is_opened(rt: &impl Abort, alloc: Global, statements: &str) -> bool {
    let conn = made_by(rt, alloc, statements);
    match Tables::open(alloc, conn, person(rt, alloc, b"root")) {
        Ok(_) => true,
        Err(back) => {
            assert!(rt;
                matches!(back.fault, StoreFault::NotThisStore),
                "{statements}"
            );
            false
        }
    }
}

#[test]
fn opens_where_the_office_has_its_row(rt: HostRuntime) {
    for (statements, wanted) in OFFICES.iter() {
        assert!(rt;
            is_opened(&rt, rt.alloc(), statements) == *wanted,
            "{statements}"
        );
    }
}

#[test]
fn makes_no_second_store(rt: HostRuntime) {
    let alloc = rt.alloc();
    let conn = opened(&rt, alloc).close();
    let Err(back) = Tables::create(alloc, conn, person(&rt, alloc, b"root")) else {
        rt.panic("tables are there")
    };
    assert!(rt; matches!(back.fault, StoreFault::Fault(Fault::Store)));
}
