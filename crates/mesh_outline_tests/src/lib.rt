//! Tests of outlines: worked ones, at the ends of the ranges, and apart from each other. `reference/compare.py` holds the
//! program's answers to many more of them against the reference.
#![tactic(auto)]

#[cfg(test)]
mod answers;
#[cfg(test)]
mod apart;
#[cfg(test)]
mod calls;
#[cfg(test)]
mod mitered;
#[cfg(test)]
mod nearness;
#[cfg(test)]
mod outlines;
#[cfg(test)]
mod regions;
#[cfg(test)]
mod round;
#[cfg(test)]
mod slivers;
#[cfg(test)]
mod sources;
#[cfg(test)]
mod validation;
#[cfg(test)]
mod worked;
#[cfg(test)]
mod zone;
