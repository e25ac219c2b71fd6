//! Tests of what is left of an office whose store fails: statements that may take only a limited number of steps, disks
//! on which a sync fails or that stop at some call, and files that are closed and opened again.
#![tactic(auto)]

#[cfg(test)]
mod crashes;
#[cfg(test)]
mod interruptions;
#[cfg(test)]
mod reopenings;
#[cfg(test)]
mod syncs;
