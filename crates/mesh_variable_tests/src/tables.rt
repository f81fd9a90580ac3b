//! Paths and what a reference program in Python makes of them. `make_tables.py` of this crate drew most of the paths at
//! random, with a fixed seed; the others are worked examples. The reference program was written from the specification
//! (`reference/`). The script wrote the tables: change it, and not them.
//!
//! Each line is a row, whose fields have bars between them. A field lists points, as `x y`, and vertices, as
//! `x y width`, with commas between them, and lists of those with semicolons between.

pub mod edges;
pub mod ranges;
pub mod sections;
pub mod shapes;
pub mod windings;
