//! Tests of sessions over an office in lists: however the reads and the writes are cut, and if one fails; and the
//! answer to each malformed request.
#![tactic(auto)]

#[cfg(test)]
mod causes;
#[cfg(test)]
mod cuts;
#[cfg(test)]
mod exchanges;
#[cfg(test)]
mod failures;
#[cfg(test)]
mod readers;
#[cfg(test)]
mod streams;
