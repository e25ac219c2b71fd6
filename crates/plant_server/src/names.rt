//! What is found under a name: a file, an empty one, a log without its file, or nothing. No contract says what has a
//! name; so what this module finds it hands out as values that no other module can make.

ghost use Rattle.std.specs.Prelude.{◌≢◌, IfErr, IfOk};
ghost use Rattle.plant_server.specs.OverFiles.{IsFoundAt};

use crate::files::{MEMORY, STORE};
use plant_server_machine::Machine;
use plant_store::StoreFault;

/// Whether anything has this name, even a link to a missing file.
fn is_named(machine: &Machine<'_>, path: &str) -> Result<bool, StoreFault>
    ensures { IfErr result (λ e. e ≢ StoreFault.NotThisStore) }
{
    match machine.is_named(path) {
        Ok(is_named) => Ok(is_named),
        Err(_) => Err(STORE),
    }
}

/// The length in bytes of the file of this name, following links, or `None` if nothing has the name. A link to a
/// missing file counts as an empty file.
pub fn length_of(machine: &Machine<'_>, path: &str) -> Result<Option<u64>, StoreFault>
    ensures { IfErr result (λ e. e ≢ StoreFault.NotThisStore) }
{
    match machine.length_of(path) {
        Ok(Some(length)) => Ok(Some(length)),
        Ok(None) => Ok(if is_named(machine, path)? {
            Some(0)
        } else {
            None
        }),
        Err(_) => Err(STORE),
    }
}

/// That a file of this name was found empty, or only a log of it. Only this module makes it, only where that is so.
#[derive(Drop)]
pub struct Empty {
    path: String,
}

/// What was found under a name.
#[derive(Drop)]
pub enum Found {
    /// Neither a file nor its log.
    Nothing,
    /// An empty file, or a log without its file: these keep no books.
    Empty(Empty),
    /// A file that is not empty.
    File,
}

/// Whether a file of this name exists. An empty file, or a log without its file, keeps no books: this is reported
/// before the engine would write to it. An empty name is an error.
pub fn is_there(machine: &Machine<'_>, path: &str) -> Result<Found, StoreFault>
    ensures named { IfErr result (λ e. e ≢ StoreFault.NotThisStore) }
    ensures empty { IfOk result (IsFoundAt path.now) }
{
    if path.is_empty() {
        return Err(STORE);
    }
    let log = beside(machine, path, "-wal")?;
    match (length_of(machine, path)?, length_of(machine, &log)?) {
        (None, None) => Ok(Found::Nothing),
        (Some(0), _) | (None, Some(_)) => match String::from_str(machine.alloc(), path) {
            Ok(path) => Ok(Found::Empty(Empty { path })),
            Err(_) => Err(MEMORY),
        },
        (Some(_), _) => Ok(Found::File),
    }
}

/// The name of a file beside this one, with this ending added.
pub fn beside(machine: &Machine<'_>, path: &str, ending: &str) -> Result<String, StoreFault>
    ensures { IfErr result (λ e. e ≢ StoreFault.NotThisStore) }
{
    match format!(in machine.alloc(); "{path}{ending}") {
        Ok(name) => Ok(name),
        Err(_) => Err(MEMORY),
    }
}

/// Removes a file, if it exists.
pub fn remove(machine: &Machine<'_>, path: &str) -> Result<(), StoreFault>
    ensures { IfErr result (λ e. e ≢ StoreFault.NotThisStore) }
{
    match machine.remove(path) {
        Ok(()) => Ok(()),
        Err(_) => Err(STORE),
    }
}
