//! The program's command: sessions over its streams or over the connections of a port, or the migration of an older
//! file, and its exit status.
#![tactic(auto)]

mod books;
mod commands;
mod files;
mod laws;
mod migrations;
mod names;
mod nets;
mod openings;
mod places;
mod remains;
mod reports;
mod services;
mod sockets;
mod statuses;

pub use commands::{FileOffice, command, command_over, serve_file};
pub use laws::promises_are_kept;
pub use migrations::{Migrated, migrate_file};
pub use nets::{HostNet, Net, Standing};
pub use places::Located;
pub use plant_server_listener::{Listener, serve_connections};
pub use remains::Left;
pub use services::serve_port;
pub use sockets::Port;
pub use statuses::ExitStatus;
