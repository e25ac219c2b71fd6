//! Whether the limit of open file descriptors allows the wanted number of clients. It is checked at the start, for a
//! warning.

use plant_server_machine::most_descriptors;

/// How many file descriptors a service needs in addition to one for each client.
const BESIDE_CLIENTS: u64 = 64;

/// Whether the limit of file descriptors is too low to serve this many clients at once. False if the limit is unknown.
pub fn has_few_descriptors(clients: usize) -> bool {
    match most_descriptors() {
        Some(most) => most < BESIDE_CLIENTS.saturating_add(clients as u64),
        None => false,
    }
}
