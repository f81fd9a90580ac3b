//! Tests of booleans: worked, and at random against a plain count of windings.
#![tactic(auto)]

#[cfg(test)]
mod buffers;
#[cfg(test)]
mod random_answers;
#[cfg(test)]
mod random_zones;
mod regions;
#[cfg(test)]
mod worked_answers;
