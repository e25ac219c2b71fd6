//! Tests of whole sessions over both keepers: the worked examples, with the rows that both keepers hold; what a cache
//! asks of the books below it; weeks of as many events as a unit may have; and memory that runs out.
#![tactic(auto)]

#[cfg(test)]
mod asked;
#[cfg(test)]
mod faults;
#[cfg(test)]
mod keepers;
#[cfg(test)]
mod mixes;
#[cfg(test)]
mod persons;
#[cfg(test)]
mod worked;
