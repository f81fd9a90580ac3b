//! Booleans of regions: union, intersection, difference and exclusive or of contours, and how often zones cover the
//! plane.
//!
//! The calls stand in `boolean`, for contours, each with a fill rule of its own, and in `zones`, for polygons that an
//! overlay or an offset returned; `overlaps` lists which of many zones overlap, and `meeting_pairs` finds those whose
//! bounds meet. `rule` says which points a boolean keeps. Each operand is resolved alone, by its fill rule, so that it
//! winds once round what it fills; then the edges of both are resolved together, those of the clip as they are or
//! reversed, by a rule on the sum of both windings.
//!
//! Read `specs/Rules.antt` first, then `specs/Booleans.antt`, what a boolean is, `specs/Regions.antt`, where its answer
//! winds, and `specs/Nearness.antt`, how far from the edges of the operands that holds at each point.
#![tactic(auto)]

pub mod boolean;
pub mod laws;
mod meeting_pairs;
mod nearness;
mod operand;
pub mod overlaps;
pub mod rule;
pub mod zones;
