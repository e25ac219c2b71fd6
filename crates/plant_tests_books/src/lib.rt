//! Tests of the books in lists: what they keep, what they give to a call, and what a fault leaves.
#![tactic(auto)]

#[cfg(test)]
mod faults;
#[cfg(test)]
mod fixtures;
#[cfg(test)]
mod keeping;
#[cfg(test)]
mod parts;
