//! What the program writes of itself on its output and on standard error, and the exit status that goes with it.

ghost use Rattle.std.specs.Prelude.{◌≡◌, IfOk};
ghost use Rattle.plant_server.specs.Streams.{IsPrintedOrCut};
ghost use Rattle.plant_server.specs.declared.statuses.ExitStatus.TheVariants.{NoBooks};
ghost use Rattle.plant_server.specs.Statuses as statuses;

use crate::statuses::ExitStatus;
use itoa::Buffer;
use plant_server_clients::Halted;
use plant_server_listener::Stopped;
use plant_server_log::say;
use plant_server_options::CommandLineError;
use plant_store::StoreFault;
use plant_wire::End;
use std::alloc::{AllocError, Global};
use std::io::Write;

/// The status for the end of a session.
fn status_of(end: End) -> ExitStatus
    ensures { result ≡ statuses.exit_status_of end }
{
    match end {
        End::Closed => ExitStatus::Done,
        End::BrokenInput => ExitStatus::BrokenInput,
        End::ReadFailed => ExitStatus::ReadFailed,
        End::WriteFailed => ExitStatus::WriteFailed,
        End::Fault => ExitStatus::NoMemory,
    }
}

/// The line that says how a session ended.
fn end_text(end: End) -> &'static [u8]
    ensures { result.now ≡ statuses.end_text end }
{
    match end {
        End::Closed => b"end: Closed\n",
        End::BrokenInput => b"end: BrokenInput\n",
        End::ReadFailed => b"end: ReadFailed\n",
        End::WriteFailed => b"end: WriteFailed\n",
        End::Fault => b"end: Fault\n",
    }
}

/// Writes to standard error how the session ended, and returns the status.
pub(crate) fn report_end<E: Write>(errors: &mut E, end: End) -> ExitStatus
    ensures status { result ≡ statuses.exit_status_of end }
    ensures said { IsPrintedOrCut (E.contents errors.old) (E.contents errors.new) (statuses.end_text end) }
{
    say(errors, end_text(end));
    status_of(end)
}

/// The line that says why a port of one connection after the other is served no longer.
fn stopped_text(outcome: Result<(), Stopped>) -> &'static [u8]
    ensures { result.now ≡ statuses.stopped_text outcome }
{
    match outcome {
        Ok(()) => b"",
        Err(Stopped::Failed) => b"net: failed\n",
        Err(Stopped::Shut) => b"store: fault\n",
    }
}

/// Writes to standard error if listening, accepting or the store failed, and returns the status.
pub(crate) fn report_stopped<E: Write>(errors: &mut E, outcome: Result<(), Stopped>) -> ExitStatus
    ensures status { result ≡ statuses.served outcome }
    ensures said { IsPrintedOrCut (E.contents errors.old) (E.contents errors.new) (statuses.stopped_text outcome) }
{
    say(errors, stopped_text(outcome));
    match outcome {
        Ok(()) => ExitStatus::Done,
        Err(Stopped::Failed) => ExitStatus::NetFailed,
        Err(Stopped::Shut) => ExitStatus::NoBooks,
    }
}

/// The line that says why a port of many connections at once is served no longer.
fn halted_text(outcome: Result<(), Halted>) -> &'static [u8]
    ensures { result.now ≡ statuses.halted_text outcome }
{
    match outcome {
        Ok(()) | Err(Halted::Memory) => b"",
        Err(Halted::Ports) => b"net: failed\n",
        Err(Halted::Shut) => b"store: fault\n",
    }
}

/// Writes to standard error if the port of many connections at once or the store failed, and returns the status.
pub(crate) fn report_halted<E: Write>(errors: &mut E, outcome: Result<(), Halted>) -> ExitStatus
    ensures status { result ≡ statuses.served_at_once outcome }
    ensures said { IsPrintedOrCut (E.contents errors.old) (E.contents errors.new) (statuses.halted_text outcome) }
{
    say(errors, halted_text(outcome));
    match outcome {
        Ok(()) => ExitStatus::Done,
        Err(Halted::Memory) => ExitStatus::NoMemory,
        Err(Halted::Ports) => ExitStatus::NetFailed,
        Err(Halted::Shut) => ExitStatus::NoBooks,
    }
}

/// The line that says at which port of 127.0.0.1 the program listens.
fn listening_line(alloc: Global, number: u16) -> Result<Vec<u8>, AllocError>
    ensures { IfOk result (λ line. line.items ≡ statuses.listening_text number) }
{
    let mut buffer = Buffer::new();
    let mut line = Vec::from_slice(alloc, b"listening on 127.0.0.1:")?;
    line.extend_from_slice(buffer.format(number).as_bytes())?;
    line.extend_from_slice(b"\n")?;
    Ok(line)
}

/// Prints at which port the program listens. A failed write is ignored.
pub(crate) fn say_address<W: Write>(alloc: Global, output: &mut W, number: u16)
    ensures { IsPrintedOrCut (W.contents output.old) (W.contents output.new) (statuses.listening_text number) }
{
    if let Ok(line) = listening_line(alloc, number) {
        say(output, &line);
    }
}

/// The line that says why no books were opened.
fn unopened_text(fault: &StoreFault) -> &'static [u8]
    ensures { result.now ≡ statuses.unopened_text fault.now }
{
    match fault {
        StoreFault::NotThisStore => b"store: not this store\n",
        StoreFault::Fault(_) => b"store: fault\n",
    }
}

/// Writes to standard error why no books were opened, and returns the status.
pub(crate) fn report_unopened<E: Write>(errors: &mut E, fault: &StoreFault) -> ExitStatus
    ensures status { result ≡ NoBooks }
    ensures said { IsPrintedOrCut (E.contents errors.old) (E.contents errors.new) (statuses.unopened_text fault.now) }
{
    say(errors, unopened_text(fault));
    ExitStatus::NoBooks
}

/// Reports whether the older file was migrated, and returns the status.
pub(crate) fn report_migration<T, W: Write, E: Write>(
    output: &mut W,
    errors: &mut E,
    outcome: &Result<T, StoreFault>,
) -> ExitStatus
    ensures status { result ≡ statuses.status_of_migration outcome.now }
    ensures printed { IsPrintedOrCut (W.contents output.old) (W.contents output.new) (statuses.migrated_text outcome.now) }
    ensures said { IsPrintedOrCut (E.contents errors.old) (E.contents errors.new) (statuses.unmigrated_text outcome.now) }
{
    match outcome {
        Ok(_) => {
            say(output, b"migrated\n");
            ExitStatus::Done
        }
        Err(fault) => report_unopened(errors, fault),
    }
}

/// Prints why the command line is refused, or the help that it asks for, and returns the status.
pub(crate) fn report_command_line_error<W: Write, E: Write>(
    output: &mut W,
    errors: &mut E,
    error: &CommandLineError,
) -> ExitStatus
    ensures status { result ≡ statuses.status_of_command_line error.now }
    ensures printed { IsPrintedOrCut (W.contents output.old) (W.contents output.new) (statuses.help_text error.now) }
    ensures said { IsPrintedOrCut (E.contents errors.old) (E.contents errors.new) (statuses.refusal_text error.now) }
{
    match error {
        CommandLineError::Text { text, is_error } => {
            if *is_error {
                say(errors, text.as_bytes());
                ExitStatus::WrongCommandLine
            } else {
                say(output, text.as_bytes());
                ExitStatus::Done
            }
        }
        CommandLineError::NotAPerson => {
            say(errors, b"admin: not a person name\n");
            ExitStatus::WrongCommandLine
        }
        CommandLineError::NoDb => {
            say(errors, b"migrate: no db\n");
            ExitStatus::WrongCommandLine
        }
        CommandLineError::Forever => {
            say(errors, b"forever: no port, or connections\n");
            ExitStatus::WrongCommandLine
        }
        CommandLineError::Memory => ExitStatus::NoMemory,
    }
}
