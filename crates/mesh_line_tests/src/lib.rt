//! Tests of requests line by line, runs of `serve_lines` over memory and over readers and writers that fail, and of the
//! words that ask them.
#![tactic(auto)]

#[cfg(test)]
mod arguments;
#[cfg(test)]
mod combinations;
#[cfg(test)]
mod failing;
#[cfg(test)]
mod limits;
#[cfg(test)]
mod lines;
#[cfg(test)]
mod near;
#[cfg(test)]
mod reasons;
