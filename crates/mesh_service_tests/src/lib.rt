//! Tests of the service, runs of `serve` over memory and over readers and writers that fail.
#![tactic(auto)]

#[cfg(test)]
mod failing;
#[cfg(test)]
mod refused_memory;
#[cfg(test)]
mod requests;
#[cfg(test)]
mod tables;
#[cfg(test)]
mod told;
