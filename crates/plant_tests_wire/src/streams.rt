//! Streams that give and take bytes in portions and may fail, and sessions over them.

ghost use Rattle.std.specs.Prelude.{◌≤◌, None, if◌then◌else◌, length};

use plant_books::Plain;
use plant_office::Office;
use plant_types::Person;
use plant_wire::{End, Failed, Inlet, Outlet, session};
use std::alloc::Global;
use std::process::Abort;

/// An input that gives its bytes in portions, and whose read after this many fails.
#[derive(Drop)]
pub(crate) struct Feed {
    pub(crate) bytes: Vec<u8>,
    pub(crate) at: usize,
    pub(crate) most: usize,
    pub(crate) fails_at: usize,
    pub(crate) reads: usize,
    pub(crate) ended: bool,
    pub(crate) failed: bool,
}

impl Inlet for Feed {
    ghost remaining = { λ _. None };

    ghost failures = { λ s. if s.failed then 1 else 0 };

    ghost ended = { λ s. s.ended };

    ghost reads = { λ s. s.reads };

    fn take(&mut self, buf: &mut [u8]) -> Result<usize, Failed> {
        if self.failed || self.reads >= self.fails_at {
            self.failed = true;
            return Err(Failed);
        }
        self.reads += 1;
        let n = portion(self.bytes.as_slice(), self.at, self.most, buf);
        self.at = self.at.saturating_add(n);
        if n == 0 {
            self.ended = true;
        }
        Ok(n)
    }
}

/// Copies at most this many bytes from a position on, and returns how many.
pub(crate) fn portion(bytes: &[u8], at: usize, most: usize, buf: &mut [u8]) -> usize
    ensures { result ≤ length buf.old }
{
    if at >= bytes.len() {
        return 0;
    }
    let rest = &bytes[at..];
    let n = rest.len().min(most).min(buf.len());
    buf[..n].copy_from_slice(&rest[..n]);
    n
}

/// An output that takes bytes in portions; a portion of no bytes fails. The write after this many fails.
#[derive(Drop)]
pub(crate) struct Sink {
    pub(crate) bytes: Vec<u8>,
    pub(crate) most: usize,
    pub(crate) fails_at: usize,
    pub(crate) puts: usize,
    pub(crate) failed: bool,
}

impl Outlet for Sink {
    ghost written = { λ _. None };

    ghost failures = { λ s. if s.failed then 1 else 0 };

    fn put(&mut self, bytes: &[u8]) -> Result<usize, Failed> {
        if self.failed || self.puts >= self.fails_at {
            self.failed = true;
            return Err(Failed);
        }
        self.puts += 1;
        let n = bytes.len().min(self.most);
        if self.bytes.extend_from_slice(&bytes[..n]).is_err() {
            self.failed = true;
            return Err(Failed);
        }
        if n == 0 && !bytes.is_empty() {
            self.failed = true;
        }
        Ok(n)
    }
}

/// More calls than are made.
pub(crate) const NEVER: usize = usize::MAX;

pub(crate) fn feed_of(bytes: Vec<u8>, most: usize, fails_at: usize) -> Feed {
    Feed {
        bytes,
        at: 0,
        most,
        fails_at,
        reads: 0,
        ended: false,
        failed: false,
    }
}

pub(crate) fn sink_of(alloc: Global, most: usize, fails_at: usize) -> Sink {
    Sink {
        bytes: Vec::new(alloc),
        most,
        fails_at,
        puts: 0,
        failed: false,
    }
}

/// How a session ends over these streams, with an office of root's that has no unit.
pub(crate) fn run<I: Inlet, O: Outlet>(
    rt: &impl Abort,
    alloc: Global,
    inlet: &mut I,
    outlet: &mut O,
) -> End {
    let root = Person::read(alloc, b"root")
        .expect(rt, "memory")
        .expect(rt, "a person");
    let mut office = Office::new(alloc, Plain::new(alloc, root));
    let end = session(alloc, inlet, outlet, &mut office);
    drop(office.into_books());
    end
}

pub(crate) fn joined(rt: &impl Abort, alloc: Global, parts: &[&[u8]]) -> Vec<u8> {
    let mut out = Vec::new(alloc);
    for part in parts {
        out.extend_from_slice(part).expect(rt, "memory");
    }
    out
}

/// Over these streams a session writes these bytes and ends in this way.
pub(crate) fn is_answered(
    rt: &impl Abort,
    alloc: Global,
    mut inlet: Feed,
    mut outlet: Sink,
    wanted: &[u8],
    end: End,
) {
    let ended = run(rt, alloc, &mut inlet, &mut outlet);
    assert_eq!(rt; ended, end);
    assert!(rt; outlet.bytes.as_slice() == wanted);
}
