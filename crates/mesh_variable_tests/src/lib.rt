//! Tests of strokes whose width changes from vertex to vertex: stored edges, windings, contacts and shapes, sources,
//! and the ends of the safe range.
#![tactic(auto)]

#[cfg(test)]
mod drawn;
#[cfg(test)]
mod edges;
#[cfg(test)]
mod nearness;
#[cfg(test)]
mod ranges;
#[cfg(test)]
mod sections;
#[cfg(test)]
mod shapes;
#[cfg(test)]
mod sources;
#[cfg(test)]
mod tables;
#[cfg(test)]
mod values;
#[cfg(test)]
mod windings;
