//! Tests of many connections at once over an office in lists: each is sent what a session of its own writes, or its
//! part of what one session over all their requests writes. And books that fail, for tests of what a service does then.
#![tactic(auto)]

#[cfg(test)]
mod clients;
mod failing;
#[cfg(test)]
mod faults;
#[cfg(test)]
mod orders;
#[cfg(test)]
mod recorded;
#[cfg(test)]
mod scripts;
#[cfg(test)]
mod sessions;
#[cfg(test)]
mod trials;

pub use failing::Failing;
