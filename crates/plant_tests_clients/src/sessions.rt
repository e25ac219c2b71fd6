//! One session over one client, with an office of its own or a given one.

ghost use Rattle.std.specs.Prelude.{◌≤◌, None, if◌then◌else◌, length};

use crate::clients::{Client, Manner};
use plant_books::Plain;
use plant_office::Office;
use plant_types::Person;
use plant_wire::{End, Failed, Inlet, Outlet, session};
use std::alloc::Global;
use std::process::Abort;

/// Copies bytes from a position on, as many as there is room for, and returns how many.
pub(crate) fn portion(bytes: &[u8], at: usize, most: usize, buf: &mut [u8]) -> usize
    ensures { result ≤ length buf.old }
{
    if at >= bytes.len() {
        return 0;
    }
    let rest = &bytes[at..];
    let n = rest.len().min(most).min(buf.len());
    buf[..n].copy_from_slice(&rest[..n]);
    n
}

/// What a client sends.
#[derive(Drop)]
struct Feed<'a> {
    client: &'a Client,
    at: usize,
    reads: usize,
    ended: bool,
    failed: bool,
}

impl Inlet for Feed<'_> {
    ghost remaining = { λ _. None };

    ghost failures = { λ s. if s.failed then 1 else 0 };

    ghost ended = { λ s. s.ended };

    ghost reads = { λ s. s.reads };

    fn take(&mut self, buf: &mut [u8]) -> Result<usize, Failed> {
        if self.failed || self.reads >= 1_000_000 {
            self.failed = true;
            return Err(Failed);
        }
        let n = portion(&self.client.bytes, self.at, usize::MAX, buf);
        if n == 0 && self.client.manner != Manner::Ends {
            self.failed = true;
            return Err(Failed);
        }
        self.reads += 1;
        self.at = self.at.saturating_add(n);
        if n == 0 {
            self.ended = true;
        }
        Ok(n)
    }
}

/// What a client takes.
#[derive(Drop)]
struct Sink {
    bytes: Vec<u8>,
    takes: usize,
    failed: bool,
}

impl Outlet for Sink {
    ghost written = { λ _. None };

    ghost failures = { λ s. if s.failed then 1 else 0 };

    fn put(&mut self, bytes: &[u8]) -> Result<usize, Failed> {
        let left = self.takes.saturating_sub(self.bytes.len());
        if self.failed || left == 0 {
            self.failed = true;
            return Err(Failed);
        }
        let n = bytes.len().min(left);
        if self.bytes.extend_from_slice(&bytes[..n]).is_err() {
            self.failed = true;
            return Err(Failed);
        }
        if n == 0 && !bytes.is_empty() {
            self.failed = true;
        }
        Ok(n)
    }
}

/// An office of the administrator `root` without a unit.
pub(crate) fn office_of(rt: &impl Abort, alloc: Global) -> Office<Plain> {
    let root = Person::read(alloc, b"root")
        .expect(rt, "memory")
        .expect(rt, "a person");
    Office::new(alloc, Plain::new(alloc, root))
}

/// What a session by this office writes to a client, and how it ends.
pub(crate) fn session_by(
    alloc: Global,
    client: &Client,
    office: &mut Office<Plain>,
) -> (Vec<u8>, End) {
    let mut inlet = Feed {
        client,
        at: 0,
        reads: 0,
        ended: false,
        failed: false,
    };
    let mut outlet = Sink {
        bytes: Vec::new(alloc),
        takes: client.takes,
        failed: false,
    };
    let end = session(alloc, &mut inlet, &mut outlet, office);
    (outlet.bytes, end)
}

/// What a session of its own writes to a client, and how it ends.
pub(crate) fn alone(rt: &impl Abort, alloc: Global, client: &Client) -> (Vec<u8>, End) {
    let mut office = office_of(rt, alloc);
    let written = session_by(alloc, client, &mut office);
    drop(office.into_books());
    written
}
