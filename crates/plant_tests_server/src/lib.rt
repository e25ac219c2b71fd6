//! Tests of connections over real sockets, and of the program's command over a port.
#![tactic(auto)]

#[cfg(test)]
mod many;
#[cfg(test)]
mod ports;
#[cfg(test)]
mod sockets;
