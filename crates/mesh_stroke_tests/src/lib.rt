//! Tests of strokes: worked ones, at the ends of the ranges, their halves and how near they hold points.
//! `reference/compare.py` holds the program's answers to many more of them against the reference.
#![tactic(auto)]

#[cfg(test)]
mod answers;
#[cfg(test)]
mod calls;
#[cfg(test)]
mod collapsed;
#[cfg(test)]
mod crowded;
#[cfg(test)]
mod drawn;
#[cfg(test)]
mod halves;
#[cfg(test)]
mod inner;
#[cfg(test)]
mod nearness;
#[cfg(test)]
mod regions;
#[cfg(test)]
mod shapes;
#[cfg(test)]
mod styles;
#[cfg(test)]
mod validation;
#[cfg(test)]
mod worked;
