//! Tests of the books in tables: what they keep, what they give to a call, which databases they open, what they answer
//! if a column or a table is spoiled, and the migration of stores of schema 1.
#![tactic(auto)]

#[cfg(test)]
mod fixtures;
#[cfg(test)]
mod keeping;
#[cfg(test)]
mod migrations;
#[cfg(test)]
mod older;
#[cfg(test)]
mod opening;
#[cfg(test)]
mod outside;
#[cfg(test)]
mod parts;
