//! All that the program asks of the machine it runs on, beside its arguments and its standard streams: names of files,
//! the files of the books, its port, the clock and memory. Whatever it asks for takes the runtime, which `Machine` holds
//! and never hands out. So code that is lent a `Machine` reaches nothing that does not stand here.
//!
//! A contract here repeats what the library below says. No contract says what a name stands for on the disk, or who is
//! at the other end of a connection: this crate is to be read, line by line.
#![tactic(auto)]

ghost use Rattle.std.specs.Prelude.{false, true, IfOk, IsTrue};
ghost use Rattle.sqlite_std_file.specs.File.{file_is_usable, IsFresh};

use libc::types::rlimit;
use libc::{RLIMIT_NOFILE, getrlimit};
use mio::Poll;
use mio::net::TcpListener as ListenerOfMany;
use sqlite_disk::Files;
use sqlite_std_file::{FileFrom, OpenError, Start};
use std::alloc::Global;
use std::hash::{BuildHasher, RandomState};
use std::io::{ErrorKind, Read};
use std::net::{Ipv4Addr, SocketAddr, TcpListener};
use std::os::unix::fs::MetadataExt;
use std::time::{Duration, Instant};
use std::{fs, io};

/// The machine that the program runs on.
#[derive(Clone, Copy)]
pub struct Machine<'a> {
    rt: &'a HostRuntime,
}

/// `None` in place of the error that nothing has the name.
fn if_found<T: Drop>(found: io::Result<T>) -> io::Result<Option<T>> {
    match found {
        Ok(found) => Ok(Some(found)),
        Err(error) if error.kind() == ErrorKind::NotFound => Ok(None),
        Err(error) => Err(error),
    }
}

/// The address of a port of this machine alone: 127.0.0.1, which no other machine reaches.
fn loopback(port: u16) -> SocketAddr {
    SocketAddr::from((Ipv4Addr::LOCALHOST, port))
}

impl<'a> Machine<'a> {
    /// The machine of this runtime.
    pub fn new(rt: &'a HostRuntime) -> Machine<'a> {
        Machine { rt }
    }

    /// Its memory.
    pub fn alloc(&self) -> Global {
        self.rt.alloc()
    }

    /// A random number.
    pub fn random(&self) -> io::Result<u64> {
        Ok(RandomState::new(self.rt)?.hash_one(&0u8))
    }

    /// Whether anything has this name, even a link to a missing file.
    pub fn is_named(&self, path: &str) -> io::Result<bool> {
        Ok(if_found(fs::symlink_metadata(self.rt, path))?.is_some())
    }

    /// The length in bytes of the file of this name, following links. `None` if there is none, or if a link leads to
    /// none.
    pub fn length_of(&self, path: &str) -> io::Result<Option<u64>> {
        match if_found(fs::metadata(self.rt, path))? {
            Some(file) => Ok(Some(file.len())),
            None => Ok(None),
        }
    }

    /// Whether the file at this path, following links, is what this name stands for, without following links.
    pub fn is_same_file(&self, path: &str, name: &str) -> io::Result<bool> {
        let file = fs::metadata(self.rt, path)?;
        match if_found(fs::symlink_metadata(self.rt, name))? {
            Some(named) => Ok(named.dev() == file.dev() && named.ino() == file.ino()),
            None => Ok(false),
        }
    }

    /// The path of the file at this path, without links.
    pub fn whole_path(&self, path: &str) -> io::Result<String> {
        let whole = fs::canonicalize(self.rt, path)?;
        Ok(String::from_str(self.alloc(), whole.as_str())?)
    }

    /// Removes the file of this name, if there is one.
    pub fn remove(&self, path: &str) -> io::Result<()> {
        if_found(fs::remove_file(self.rt, path))?;
        Ok(())
    }

    /// Gives the file of the first name the second one.
    pub fn rename(&self, from: &str, to: &str) -> io::Result<()> {
        fs::rename(self.rt, from, to)
    }

    /// Syncs the folder of the file at this path, so that the file's name is on the disk.
    pub fn sync_folder_of(&self, path: &str) -> io::Result<()> {
        let mut folder = fs::canonicalize(self.rt, path)?;
        folder.pop();
        fs::File::open(self.rt, folder.as_str())?.sync_all()
    }

    /// The first bytes of the file at this path, up to the size of a page in the header of a database.
    pub fn head_of(&self, path: &str) -> io::Result<[u8; 18]> {
        let mut head = [0; 18];
        fs::File::open(self.rt, path)?.read_exact(&mut head)?;
        Ok(head)
    }

    /// Opens and locks the file at this path and its log, each created if missing.
    pub fn open<S: Start>(&self, path: &str, start: S) -> Result<Files<FileFrom<S>>, OpenError>
        ensures log { IfOk result (λ files. IsTrue (file_is_usable S.Start files.log)) }
        ensures db { IfOk result (λ files. IsTrue (file_is_usable S.Start files.db)) }
        ensures fresh { IfOk result (λ files. IsFresh true files.log × IsFresh false files.db) }
    {
        sqlite_std_file::open(self.rt, path, start)
    }

    /// Listens on this port, or on a free one for 0, for connections that are served one after the other.
    pub fn listen(&self, port: u16) -> io::Result<TcpListener> {
        TcpListener::bind(self.rt, loopback(port))
    }

    /// Listens on this port, or on a free one for 0, for connections that are served many at once.
    pub fn listen_for_many(&self, port: u16) -> io::Result<ListenerOfMany> {
        ListenerOfMany::bind(self.rt, loopback(port))
    }

    /// What tells which sockets are ready.
    pub fn poll(&self) -> io::Result<Poll> {
        Poll::new(self.rt)
    }

    /// The moment on the machine's clock that only goes forward.
    pub fn now(&self) -> io::Result<Instant> {
        Instant::now(self.rt)
    }

    /// How much time has passed since this moment on that clock.
    pub fn elapsed_since(&self, start: Instant) -> io::Result<Duration> {
        start.elapsed(self.rt)
    }
}

/// How many file descriptors the program may have, if the system says so.
pub fn most_descriptors() -> Option<u64> {
    let mut limit = rlimit {
        rlim_cur: 0,
        rlim_max: 0,
    };
    if getrlimit(RLIMIT_NOFILE, &mut limit) != 0 {
        return None;
    }
    Some(limit.rlim_cur)
}
