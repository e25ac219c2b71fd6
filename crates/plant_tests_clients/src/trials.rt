//! However many connections there are, each is sent what a session of its own writes, and ends as that one does.

use crate::clients::{client_of, next_number};
use crate::scripts::{Script, Served};
use crate::sessions::{alone, office_of};
use plant_server_clients::{Plan, serve_clients};
use std::alloc::Global;
use std::ops::Range;
use std::process::Abort;

/// A script of this many clients.
fn script_of(rt: &impl Abort, alloc: Global, mut seed: u64, clients: u64, most: u64) -> Script {
    let mut served = Vec::new(alloc);
    for unit in 0..clients {
        let one = Served {
            client: client_of(rt, alloc, &mut seed, unit),
            at: 0,
            sent: Vec::new(alloc),
            end: None,
        };
        served.push(one).expect(rt, "memory");
    }
    Script {
        served,
        opened: 0,
        seed: next_number(&mut seed),
        most,
        turns: 0,
        most_open: 0,
    }
}

/// Serves a script, and returns the log of lines.
fn serve(rt: &impl Abort, alloc: Global, script: &mut Script, clients: u64) -> Vec<u8> {
    let plan = Plan {
        connections: clients,
        while_open: false,
    };
    let mut log = Vec::new(alloc);
    let mut errors = Vec::new(alloc);
    let mut office = office_of(rt, alloc);
    let over = serve_clients(alloc, script, plan, &mut office, &mut log, &mut errors);
    drop(office.into_books());
    assert!(rt; over.is_ok());
    assert!(rt; errors.is_empty());
    log
}

/// Each client was sent what a session of its own writes.
fn are_as_alone(rt: &impl Abort, alloc: Global, script: &Script, seed: u64) {
    for one in &script.served {
        let (bytes, end) = alone(rt, alloc, &one.client);
        assert_eq!(rt; one.end, Some(end), "script {seed}");
        assert!(rt; one.sent.as_slice() == bytes.as_slice(), "script {seed}");
    }
}

/// The log has this many connections.
fn has_lines(rt: &impl Abort, log: &[u8], count: u64) {
    let mut connections = 0u64;
    for &byte in log {
        if byte == b'\n' {
            connections = connections.saturating_add(1);
        }
    }
    assert_eq!(rt; connections, count);
}

/// One script.
fn try_script(rt: &impl Abort, alloc: Global, seed: u64) {
    let mut numbers = seed;
    let clients = 1u64.saturating_add(next_number(&mut numbers) % 20);
    let most = match seed % 3 {
        0 => 7,
        1 => 200,
        _ => 4096,
    };
    let mut script = script_of(rt, alloc, seed, clients, most);
    let log = serve(rt, alloc, &mut script, clients);
    has_lines(rt, &log, clients);
    are_as_alone(rt, alloc, &script, seed);
}

/// These scripts, one after another.
fn try_scripts(rt: &impl Abort, alloc: Global, seeds: Range<u64>) {
    for seed in seeds {
        try_script(rt, alloc, seed);
    }
}

#[test]
fn answers_each_as_alone(rt: HostRuntime) {
    try_scripts(&rt, rt.alloc(), 0..50);
}

#[test]
fn answers_each_as_alone_again(rt: HostRuntime) {
    try_scripts(&rt, rt.alloc(), 50..100);
}

#[test]
fn answers_each_of_others_as_alone(rt: HostRuntime) {
    try_scripts(&rt, rt.alloc(), 100..150);
}

#[test]
fn answers_each_of_the_last_as_alone(rt: HostRuntime) {
    try_scripts(&rt, rt.alloc(), 150..200);
}
