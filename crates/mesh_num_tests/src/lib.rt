//! Tests of numbers, points, sources of paths, segments, and cleaned contours.
#![tactic(auto)]

#[cfg(test)]
mod arcs;
#[cfg(test)]
mod cleaned;
#[cfg(test)]
mod directions;
#[cfg(test)]
mod numbers;
#[cfg(test)]
mod pairs;
#[cfg(test)]
mod points;
#[cfg(test)]
mod segments;
#[cfg(test)]
mod sines;
#[cfg(test)]
mod sources;
