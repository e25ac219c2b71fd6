//! The exit statuses of the program. They are part of its interface: scripts and service managers act on them.

ghost use Rattle.std.specs.Prelude.{◌≡◌};
ghost use Rattle.plant_server.specs.Statuses as statuses;

/// How the program ended.
#[derive(Clone, Copy, Debug, PartialEq, Eq)]
pub enum ExitStatus {
    /// The input ended and every request was answered, all connections of the port were served, the older file was
    /// migrated, or help was given.
    Done,
    /// The command line is wrong.
    WrongCommandLine,
    /// The books were not opened, the older file was not migrated, or a failure shut the store of a service that was to
    /// serve all connections that come.
    NoBooks,
    /// The session's input ended within a request, or its bytes are not requests.
    BrokenInput,
    /// A read of the session failed.
    ReadFailed,
    /// A write of the session failed.
    WriteFailed,
    /// Memory ran out, or an argument is not text.
    NoMemory,
    /// Listening on the port or accepting a connection failed.
    NetFailed,
}

impl ExitStatus {
    /// The number that the program exits with.
    pub fn code(self) -> u8
        ensures { result ≡ statuses.code self }
    {
        match self {
            ExitStatus::Done => 0,
            ExitStatus::WrongCommandLine => 2,
            ExitStatus::NoBooks => 3,
            ExitStatus::BrokenInput => 4,
            ExitStatus::ReadFailed => 5,
            ExitStatus::WriteFailed => 6,
            ExitStatus::NoMemory => 7,
            ExitStatus::NetFailed => 8,
        }
    }
}
