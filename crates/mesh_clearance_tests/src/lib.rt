//! Tests of how near contours come to paths.
#![tactic(auto)]

#[cfg(test)]
mod clearances;
#[cfg(test)]
mod nets;
#[cfg(test)]
mod pairs;
