//! Reads the command line with clap: the administrator, the file, and the port with its options or the migration of an
//! older file.

ghost use Rattle.std.specs.Prelude.{◌≡◌, ◌⊎◌, not, [], None, Some, Err, IfOk, IfErr, IfSome, IsSome, List, Option, codes, false, map, ℕ};
ghost use Rattle.std.specs.Prelude.{option_copied, option_map, string_bytes, unwrap_or};
ghost use Rattle.plant_server_options.specs.CommandLines.{IsCommandLineOf, IsForeverWrong, IsNoCommandLine, IsNoCommandLineOf, IsReadAs, IsServiceOf, IsTaskOf, IsTold, said};
ghost use Rattle.clap.specs.Words.{app_of, rule_of};
ghost use Rattle.plant_server_options.specs.CommandLines as lines;
ghost use Rattle.plant_types.specs.Text as names;

use clap::builder::ValueParser;
use clap::error::ErrorKind;
use clap::{Arg, ArgAction, ArgMatches, Command, Error};
use plant_types::Person;
use std::alloc::{AllocError, Global};
use std::convert::AsStr;
use std::str::FromStr;

/// Why the command line is refused.
#[derive(Drop)]
pub enum CommandLineError {
    /// The line is wrong, or asks for help or the version: clap's text, and whether it is an error.
    Text { text: String, is_error: bool },
    /// The name is not a person's.
    NotAPerson,
    /// A file is to be migrated, but the new file is not named.
    NoDb,
    /// Connections are to be served forever, but the port is not named, or the number of connections is.
    Forever,
    /// Memory ran out.
    Memory,
}

/// Whether an error of this kind is one, and does not only ask for help or the version.
fn is_mistake(kind: ErrorKind) -> bool
    ensures { result ≡ not (lines.asks_help kind) }
{
    !matches!(kind, ErrorKind::DisplayHelp | ErrorKind::DisplayVersion)
}

fn text_of(alloc: Global, error: &Error) -> CommandLineError
    ensures { IsTold error.now result }
{
    if error.kind() == ErrorKind::OutOfMemory {
        return CommandLineError::Memory;
    }
    match error.to_string(alloc) {
        Ok(text) => CommandLineError::Text {
            text,
            is_error: is_mistake(error.kind()),
        },
        Err(_) => CommandLineError::Memory,
    }
}

/// How a port is served.
#[derive(Clone, Copy, Debug)]
pub struct Service {
    /// The port of 127.0.0.1.
    pub port: u16,
    /// How many connections are served.
    pub connections: u64,
    /// How many of them are served at once.
    pub clients: u64,
    /// After how many seconds a silent connection is given up.
    pub idle: Option<u64>,
    /// Whether it ends once the store has shut, and reports each fault that it answers.
    pub while_open: bool,
}

/// What the program does.
#[derive(Drop)]
pub enum Task {
    /// It serves the office.
    Serve {
        /// The file that keeps the tables, or `None` for tables in memory.
        db: Option<String>,
        /// The port to serve, or `None` for one session over the standard streams.
        service: Option<Service>,
    },
    /// It copies the tables of a file of the older schema to a new file, and serves nothing.
    Migrate {
        /// The file of the older schema.
        old: String,
        /// The new file.
        new: String,
    },
}

/// What the program's command line asks for.
#[derive(Drop)]
pub struct CommandLine {
    /// The administrator, who alone may open units.
    pub admin: Person,
    /// What the program does.
    pub task: Task,
}

/// The person of this name.
fn person_of(alloc: Global, name: &[u8]) -> Result<Person, CommandLineError>
    ensures named { IfOk result (λ person. names.person_of name.now ≡ Some person) }
    ensures outside { names.person_of name.now ≡ None → result ≡ Err CommandLineError.NotAPerson }
    ensures refused { IfErr result (λ e. (old db : Option (List ℕ))
        → IsNoCommandLineOf name.now old db e) }
{
    match Person::read(alloc, name) {
        Ok(Some(person)) => Ok(person),
        Ok(None) => Err(CommandLineError::NotAPerson),
        Err(_) => Err(CommandLineError::Memory),
    }
}

/// A copy of the path, if given.
fn path_of(alloc: Global, path: Option<&str>) -> Result<Option<String>, CommandLineError>
    ensures copied { IfOk result (λ copy. option_map string_bytes copy ≡ option_copied path.entry) }
    ensures memory { IfErr result (λ e. e ≡ CommandLineError.Memory) }
{
    match path {
        None => Ok(None),
        Some(path) => match String::from_str(alloc, path) {
            Ok(path) => Ok(Some(path)),
            Err(_) => Err(CommandLineError::Memory),
        },
    }
}

/// The task for these files and this port: a migration if an older file is named, whatever the port.
fn task_of(
    old: Option<String>,
    db: Option<String>,
    service: Option<Service>,
) -> Result<Task, CommandLineError>
    ensures serves { old ≡ None → result ≡ Ok (Task.Serve db service) }
    ensures migrates { IfSome old (λ o. IfSome db (λ n. result ≡ Ok (Task.Migrate o n))) }
    ensures refused { IfSome old (λ _. db ≡ None → result ≡ Err CommandLineError.NoDb) }
    ensures no_db { IfErr result (λ e. (e ≡ CommandLineError.NoDb) × IsSome old × (db ≡ None)) }
{
    match (old, db) {
        (None, db) => Ok(Task::Serve { db, service }),
        (Some(old), Some(new)) => Ok(Task::Migrate { old, new }),
        (Some(_), None) => Err(CommandLineError::NoDb),
    }
}

/// How many connections `--forever` stands for. No machine serves as many.
const FOREVER: u64 = u64::MAX;

/// The default of `--clients` with `--forever`.
const FOREVER_CLIENTS: u64 = 256;

/// The default of `--idle` with `--forever`, in seconds.
const FOREVER_IDLE: u64 = 30;

/// How a port is served, from the values of its options; `None` without a port.
fn service_from(
    port: Option<u16>,
    connections: Option<u64>,
    clients: Option<u64>,
    forever: bool,
    idle: Option<u64>,
) -> Option<Service>
    ensures { result ≡ lines.service_from port connections clients forever idle }
{
    let port = port?;
    if forever {
        return Some(Service {
            port,
            connections: FOREVER,
            clients: clients.unwrap_or(FOREVER_CLIENTS),
            idle: Some(idle.unwrap_or(FOREVER_IDLE)),
            while_open: true,
        });
    }
    Some(Service {
        port,
        connections: connections.unwrap_or(1),
        clients: clients.unwrap_or(1),
        idle,
        while_open: false,
    })
}

/// Whether `--forever` stands where it may not.
fn is_forever_wrong(port: Option<u16>, connections: Option<u64>, forever: bool) -> bool
    ensures { result ≡ lines.is_forever_wrong port connections forever }
{
    forever && (port.is_none() || connections.is_some())
}

/// How a port is served, from the options that were read. `--forever` has rules about two others, which are looked at
/// here: clap's definitions say nothing of a command with such rules.
fn service_of(matches: &ArgMatches<'_>) -> Result<Option<Service>, CommandLineError>
    ensures service { IfOk result (IsServiceOf ⟦<u16 as FromStr>⟧.from_str_gives ⟦<u64 as FromStr>⟧.from_str_gives
        matches.now) }
    ensures refused { IfErr result (λ e. (e ≡ CommandLineError.Forever)
        × IsForeverWrong ⟦<u16 as FromStr>⟧.from_str_gives ⟦<u64 as FromStr>⟧.from_str_gives matches.now) }
{
    let port = matches.get_one("port");
    let connections = matches.get_one("connections");
    let clients = matches.get_one("clients");
    let forever = matches.get_flag("forever");
    let idle = matches.get_one("idle");
    if is_forever_wrong(port, connections, forever) {
        return Err(CommandLineError::Forever);
    }
    Ok(service_from(port, connections, clients, forever, idle))
}

fn number_arg<'a>(
    alloc: Global,
    name: &'a str,
    value_name: &'a str,
    most: u64,
    help: &'a str,
) -> Arg<'a>
    ensures rule { rule_of result ≡ lines.number_rule name.entry.now most }
    ensures local { result.global ≡ false }
{
    Arg::new(alloc, name)
        .long(name)
        .value_name(value_name)
        .value_parser(ValueParser::Unsigned(1, most))
        .help(help)
        .action(ArgAction::Set)
}

fn file_arg<'a>(alloc: Global, name: &'a str, value_name: &'a str, help: &'a str) -> Arg<'a>
    ensures rule { rule_of result ≡ lines.text_rule name.entry.now }
    ensures local { result.global ≡ false }
{
    Arg::new(alloc, name)
        .long(name)
        .value_name(value_name)
        .help(help)
        .action(ArgAction::Set)
}

/// Each option is added as soon as it is made: one that had to wait would have to be dropped at every failure in
/// between.
fn store_args<'a>(alloc: Global, command: Command<'a>) -> Result<Command<'a>, AllocError>
    ensures { IfOk result (λ r. app_of r ≡ lines.with_files (app_of command.entry)) }
{
    command
        .arg(file_arg(
            alloc,
            "admin",
            "NAME",
            "The administrator, who alone opens units",
        )
        .required(true))?
        .arg(file_arg(
            alloc,
            "db",
            "FILE",
            "Keeps the tables in FILE, created if missing [default: in memory]",
        ))?
        .arg(file_arg(
            alloc,
            "migrate",
            "OLD",
            "Copies OLD, a file of the schema before, to the new FILE and ends",
        ))
}

fn forever_arg<'a>(alloc: Global) -> Arg<'a>
    ensures rule { rule_of result ≡ lines.forever_rule }
    ensures local { result.global ≡ false }
{
    Arg::new(alloc, "forever")
        .long("forever")
        .help("Serves connections to --port until the program is stopped or its store fails")
        .action(ArgAction::SetTrue)
}

fn service_args<'a>(alloc: Global, command: Command<'a>) -> Result<Command<'a>, AllocError>
    ensures { IfOk result (λ r. app_of r ≡ lines.with_service (app_of command.entry)) }
{
    let command = command
        .arg(number_arg(
            alloc,
            "port",
            "N",
            65_535,
            "Serves connections to port N of 127.0.0.1",
        ))?
        .arg(number_arg(
            alloc,
            "connections",
            "N",
            1_000,
            "Ends after N connections [default: 1]",
        ))?
        .arg(number_arg(
            alloc,
            "clients",
            "N",
            1_000,
            "Serves N connections at once [default: 1; 256 with --forever]",
        ))?;
    command.arg(forever_arg(alloc))?.arg(number_arg(
        alloc,
        "idle",
        "SECONDS",
        3_600,
        "Gives up a silent connection [default: never; 30 with --forever]",
    ))
}

/// The program's version.
const VERSION: &str = "1.0.0";

const ABOUT: &str =
    "Answers the control rooms of a plant, over standard input and output or over a port";

/// What each exit status means.
const STATUSES: &str = "Exit statuses:
  0  all requests answered, all connections served, OLD copied, help or version
  2  the command line is wrong, NAME is not a person's name, or --migrate without --db
  3  the books were not opened, OLD was not copied, or with --forever the store failed
  4  without a port: the input ended within a request, or its bytes are not requests
  5  without a port: a read failed, or a million were made
  6  without a port: a write failed
  7  out of memory, or an argument is not UTF-8
  8  listening or accepting failed";

fn office_command<'a>(alloc: Global) -> Result<Command<'a>, AllocError>
    ensures { IfOk result (λ r. app_of r ≡ lines.office) }
{
    let command = Command::new(alloc, "shelfoffice")
        .version(VERSION)
        .about(ABOUT)
        .after_help(STATUSES);
    service_args(alloc, store_args(alloc, command)?)
}

/// The line of an administrator's name, the older file, the file of the tables and the port. The name is read before
/// the files.
fn command_line_from(
    alloc: Global,
    name: &[u8],
    old: Option<&str>,
    db: Option<&str>,
    service: Option<Service>,
) -> Result<CommandLine, CommandLineError>
    ensures admin { IfOk result (λ line. names.person_of name.now ≡ Some line.admin) }
    ensures outside { names.person_of name.now ≡ None → result ≡ Err CommandLineError.NotAPerson }
    ensures refused { IfErr result
        (IsNoCommandLineOf name.now (option_copied old.entry) (option_copied db.entry)) }
    ensures task { IfOk result (λ line.
        IsTaskOf (option_copied old.entry) (option_copied db.entry) service line.task) }
{
    let admin = person_of(alloc, name)?;
    let old = path_of(alloc, old)?;
    let db = path_of(alloc, db)?;
    let task = task_of(old, db, service)?;
    Ok(CommandLine { admin, task })
}

/// What the options ask for.
fn asked_of(alloc: Global, matches: &ArgMatches<'_>) -> Result<CommandLine, CommandLineError>
    ensures asked { IfOk result (IsCommandLineOf ⟦<u16 as FromStr>⟧.from_str_gives
        ⟦<u64 as FromStr>⟧.from_str_gives matches.now) }
    ensures refused { IfErr result (IsNoCommandLine ⟦<u16 as FromStr>⟧.from_str_gives
        ⟦<u64 as FromStr>⟧.from_str_gives matches.now) }
    ensures outside { names.person_of (unwrap_or (said matches.now (codes "admin")) []) ≡ None
        → (result ≡ Err CommandLineError.NotAPerson) ⊎ (result ≡ Err CommandLineError.Forever) }
{
    let service = service_of(matches)?;
    command_line_from(
        alloc,
        matches.get_str("admin").unwrap_or("").as_bytes(),
        matches.get_str("migrate"),
        matches.get_str("db"),
        service,
    )
}

/// What the program's command line asks for, the program's own name first.
pub fn command_line_of<S: AsStr>(
    alloc: Global,
    words: &[S],
) -> Result<CommandLine, CommandLineError>
    ensures { IsReadAs ⟦<u16 as FromStr>⟧.from_str_gives ⟦<u64 as FromStr>⟧.from_str_gives
        (map S.text words.now) result }
{
    let Ok(command) = office_command(alloc) else {
        return Err(CommandLineError::Memory);
    };
    match command.try_get_matches_from(words) {
        Ok(matches) => asked_of(alloc, &matches),
        Err(error) => Err(text_of(alloc, &error)),
    }
}
