//! The lowest crates, and what is read of requests and written of answers, as tests alone: moments, tables, roles and
//! faults; copies of changes; floods; what import files add; and the targets, bodies, texts and answers that no request
//! shows.
#![tactic(auto)]

#[cfg(test)]
mod answers;
#[cfg(test)]
mod event_numbers;
#[cfg(test)]
mod fixtures;
#[cfg(test)]
mod floods;
#[cfg(test)]
mod matrices;
#[cfg(test)]
mod merges;
#[cfg(test)]
mod needs;
#[cfg(test)]
mod proposals;
#[cfg(test)]
mod routes;
#[cfg(test)]
mod texts;
#[cfg(test)]
mod types;
#[cfg(test)]
mod written;
